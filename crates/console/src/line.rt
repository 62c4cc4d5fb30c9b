//! What a line asks for, or why it is refused.
ghost use Rattle.std.specs.Prelude.{◌≡◌, Err};
ghost use Rattle.std.specs.Option.{option_map};
ghost use Rattle.console.specs.Lines.{line_fault, Unaffected};

use rules::refusal::Refusal;
use std::convert::Infallible;
use text::fault::Fault;
pub use text::line::is_line;

/// Reads a line; none stands for one that is too long. No verb is known yet, so that every line is refused for its first field.
pub fn read_line(line: Option<&[u8]>) -> Result<Infallible, Fault>
    ensures answer { result ≡ Err (line_fault (option_map (λ x. x.now) line.entry)) }
    ensures unaffected { Unaffected }
{
    if !line.is_some_and(is_line) {
        return Err(Refusal::Line.into());
    }
    Err(Fault::new(Refusal::Verb, 1, 1))
}
