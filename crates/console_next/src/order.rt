//! What a line asks the board for.
ghost use Rattle.std.specs.Prelude.{◌≡◌};
ghost use Rattle.console_next.specs.Orders.{order_for, order_of};

use rules::rack::Sizes;
use rules::ticket::Request;
use text::fault::Fault;
use text::head::read_line;
use text::token::MOST_FIGURES;
use text::verb::Verb;

/// A call of the board with its figures.
#[derive(Clone, Copy, PartialEq, Eq, Debug)]
pub enum Order {
    Open { sizes: Sizes, first: u32 },
    Book(Request),
    Step(u32),
    Drive { number: u32, budget: u32 },
    Collect(u32),
    Drop(u32),
    Back(u32),
    Show(u32),
}

impl Order {
    /// The order of a verb with its figures.
    fn new(verb: Verb, figures: [u32; MOST_FIGURES]) -> Order
        ensures { result ≡ order_for verb figures }
    {
        match verb {
            Verb::Open => Order::Open {
                sizes: Sizes {
                    rows: figures[0],
                    columns: figures[1],
                    places: figures[2],
                    lead: figures[3],
                },
                first: figures[4],
            },
            Verb::Book => Order::Book(Request {
                start: figures[0],
                length: figures[1],
            }),
            Verb::Step => Order::Step(figures[0]),
            Verb::Drive => Order::Drive {
                number: figures[0],
                budget: figures[1],
            },
            Verb::Collect => Order::Collect(figures[0]),
            Verb::Drop => Order::Drop(figures[0]),
            Verb::Back => Order::Back(figures[0]),
            Verb::Show => Order::Show(figures[0]),
        }
    }
}

/// The order of a line, or the fault for which it is refused.
pub fn read_order(line: &[u8]) -> Result<Order, Fault>
    ensures { result ≡ order_of line.now }
{
    let (verb, figures) = read_line::<Verb>(line)?;
    Ok(Order::new(verb, figures))
}
