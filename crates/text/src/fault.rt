//! Why a line was refused, and where in it.
ghost use Rattle.std.specs.Prelude.{◌≡◌};
ghost use Rattle.text.specs.Faults.{layer_of, layer_word, fault_of, blank_fault};

use rules::refusal::Refusal;

/// What refused: the reading of a line, or the board.
#[derive(Clone, Copy, PartialEq, Eq, Debug)]
pub enum Layer {
    Line,
    Board,
}

/// The layer that a refusal belongs to.
impl From<Refusal> for Layer {
    ghost from_gives = { λ refusal layer. layer ≡ layer_of refusal };

    fn from(refusal: Refusal) -> Layer {
        match refusal {
            Refusal::Limits
            | Refusal::Columns
            | Refusal::Numbers
            | Refusal::Places
            | Refusal::Unknown
            | Refusal::Stage
            | Refusal::Full => Layer::Board,
            Refusal::Verb
            | Refusal::Fields
            | Refusal::Figure
            | Refusal::Line
            | Refusal::Page
            | Refusal::Grant => Layer::Line,
        }
    }
}

impl Layer {
    /// The word that answers use.
    pub fn word(self) -> &'static str
        ensures { result.now ≡ layer_word self }
    {
        match self {
            Layer::Line => "line",
            Layer::Board => "board",
        }
    }
}

/// A refusal, and the field that it is about.
#[derive(Clone, Copy, PartialEq, Eq, Debug)]
pub struct Fault {
    pub refusal: Refusal,
    pub field: u32,
}

impl Fault {
    /// The fault of a line with `found` fields, of which `bad`, counted from 1, is the first bad one.
    pub fn new(refusal: Refusal, bad: u32, found: u32) -> Fault
        ensures { result ≡ fault_of refusal bad found }
    {
        let field = match refusal {
            Refusal::Verb | Refusal::Figure | Refusal::Grant => bad,
            Refusal::Fields => found,
            _ => 0,
        };
        Fault { refusal, field }
    }

    pub fn layer(self) -> Layer
        ensures { result ≡ layer_of self.refusal }
    {
        self.refusal.into()
    }
}

/// A refusal that names no field.
impl From<Refusal> for Fault {
    ghost from_gives = { λ refusal fault. fault ≡ fault_of refusal 0 0 };

    fn from(refusal: Refusal) -> Fault {
        Fault::new(refusal, 0, 0)
    }
}

/// A fault, and the number of its line, counted from 1.
#[derive(Clone, Copy, PartialEq, Eq, Debug)]
pub struct LineFault {
    pub line: u64,
    pub fault: Fault,
}

impl LineFault {
    /// What a place holds before a fault is noted in it.
    pub fn blank() -> LineFault
        ensures { result ≡ blank_fault }
    {
        LineFault {
            line: 0,
            fault: Refusal::Line.into(),
        }
    }
}
