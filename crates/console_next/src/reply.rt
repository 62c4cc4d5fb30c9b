//! The answers to lines that are accepted.
ghost use Rattle.std.specs.Prelude.{◌≡◌, ◌≤◌, length};
ghost use Rattle.text.specs.Pages.{shortest, Puts};
ghost use Rattle.console_next.specs.Replies.{reply_text};

use rules::report::Report;
use rules::span::Span;
use rules::ticket::Stage;
use text::page::{Field, put_line};

/// What an accepted line answers.
#[derive(Clone, Copy)]
pub enum Reply {
    Done,
    Number(u32),
    Stepped(Report),
    Driven { steps: u32, stage: Stage },
    Collected { number: u32, span: Option<Span> },
    Marks(u32),
}

impl Reply {
    /// Writes the answer from the start of the page on, and tells how long it is.
    pub(crate) fn put(self, page: &mut [u8]) -> usize
        requires { shortest ≤ length page.old }
        ensures { Puts page.old 0 (reply_text self) page.new result }
    {
        let ok = Field::Word(b"ok");
        match self {
            Reply::Done => put_line(page, 0, &[ok]),
            Reply::Number(n) | Reply::Marks(n) => put_line(page, 0, &[ok, n.into()]),
            Reply::Stepped(report) => {
                let fields = [
                    ok,
                    report.number.into(),
                    report.action.number().into(),
                    report.column.into(),
                    report.row.into(),
                ];
                put_line(page, 0, &fields)
            }
            Reply::Driven { steps, stage } => {
                put_line(
                    page,
                    0,
                    &[ok, steps.into(), Field::Word(stage.word().as_bytes())],
                )
            }
            Reply::Collected { number, span: None } => {
                put_line(page, 0, &[ok, number.into(), Field::Word(b"none")])
            }
            Reply::Collected {
                number,
                span: Some(span),
            } => {
                let fields = [ok, number.into(), span.first.into(), span.length.into()];
                put_line(page, 0, &fields)
            }
        }
    }
}
