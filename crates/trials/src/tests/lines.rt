//! Lines of the console with the answers expected.
use crate::tests::prefixed::Prefixed;
use board::board::Board;
use board::lowest::Lowest;
use console_next::answer::answer;
use console_next::session::Session;
use lists::journal::Journal;
use rules::refusal::Refusal;
use rules::report::Report;
use std::alloc::Global;
use std::process::Abort;
use std::test::Fail;
use text::fault::{Fault, LineFault};
use text::page::{write_end, write_fault, write_no};

// A page holds the text, and behind it what it held before.
fn holds(rt: &impl Abort, page: &[u8], text: &str) {
    assert!(rt; page.starts_with(text.as_bytes()), "{page:?}");
    assert!(rt;
        page.iter().skip(text.len()).all(|byte| *byte == b'#'),
        "{page:?}"
    );
}

// A session, and the journals that its lines are handed with.
#[derive(Drop)]
struct Desk<'a> {
    session: Session<Lowest>,
    reports: Journal<'a, Report>,
    faults: Journal<'a, LineFault>,
}

impl Desk<'_> {
    fn handle(&mut self, line: Option<&[u8]>, page: &mut [u8]) -> Result<usize, Fault> {
        self.session
            .handle(&mut self.reports, &mut self.faults, line, page)
    }
}

// Hands the lines one after the other to a session that begins with a board never opened, with room
// for 16 reports; each answer is as the table says.
fn converse(rt: &impl Abort, heap: Global, lines: &[(&str, &str)]) -> Result<(), Fail> {
    let mut reports = [Report::default(); 16];
    let mut faults = [LineFault::blank(); 4];
    let mut desk = Desk {
        session: Session::new(Board::new(heap)?, Lowest),
        reports: Journal::new(&mut reports),
        faults: Journal::new(&mut faults),
    };
    for (i, (line, text)) in lines.iter().enumerate() {
        let mut page = [b'#'; 70];
        let count = desk.handle(Some(line.as_bytes()), &mut page)?;
        assert_eq!(rt; count, text.len(), "line {i}");
        holds(&Prefixed::new(rt, format_args!("line {i}")), &page, *text);
    }
    Ok(())
}

const VERBS: &[(&str, &str)] = &[
    ("show\t0\n", "ok\t0\n"),
    ("show\t1\n", "no\tboard\t2\t0\n"),
    ("open\t1\t4\t2\t0\t1\n", "ok\n"),
    ("book\t0\t2\n", "ok\t1\n"),
    ("drive\t1\t9\n", "ok\t3\tgranted\n"),
    ("collect\t1\n", "ok\t1\t0\t2\n"),
    ("book\t3\t2\n", "no\tboard\t2\t0\n"),
    ("back\t1\n", "ok\n"),
    ("stop\n", "no\tline\t8\t1\n"),
    ("show\t1\n", "ok\t1\n"),
    ("step\t1\n", "ok\t1\t1\t1\t1\n"),
    ("drive\t1\t9\n", "ok\t1\tidle\n"),
    ("book\t0\t2\n", "ok\t2\n"),
    ("drive\t2\t0\n", "ok\t0\tseeking\n"),
    ("step\t2\n", "ok\t2\t5\t0\t1\n"),
    ("drop\t2\n", "ok\n"),
    ("drive\t2\t0\n", "ok\t0\tclosing\n"),
    ("drive\t2\t4294967295\n", "ok\t1\tidle\n"),
    ("book\t0\t4\n", "ok\t3\n"),
    ("drive\t3\t9\n", "ok\t5\tgranted\n"),
    ("book\t1\t2\n", "ok\t4\n"),
    ("book\t0\t1\n", "no\tboard\t4\t0\n"),
    ("step\t4\n", "ok\t4\t6\t1\t0\n"),
    ("drive\t4\t9\n", "ok\t2\twithout\n"),
    ("collect\t4\n", "ok\t4\tnone\n"),
    ("collect\t4\n", "no\tboard\t5\t0\n"),
    ("step\t3\n", "no\tboard\t6\t0\n"),
    ("open\t0\t4\t2\t0\t1\n", "no\tboard\t1\t0\n"),
    ("open\t16\t256\t64\t64\t1000000000\n", "ok\n"),
    ("book\t192\t64\n", "ok\t1000000000\n"),
    ("drive\t1000000000\t64\n", "ok\t16\tseeking\n"),
    ("step\t1000000000\n", "ok\t1000000000\t5\t208\t1\n"),
];

#[test]
fn verbs(rt: HostRuntime) -> Result<(), Fail> {
    converse(&rt, rt.alloc(), VERBS)
}

const FAULTY_WORDS: &[(&str, &str)] = &[
    ("\n", "no\tline\t8\t1\n"),
    ("Show\t0\n", "no\tline\t8\t1\n"),
    ("show \t0\n", "no\tline\t8\t1\n"),
    (" show\t0\n", "no\tline\t8\t1\n"),
    ("sho\t0\n", "no\tline\t8\t1\n"),
    ("shows\t0\n", "no\tline\t8\t1\n"),
    ("\tshow\t0\n", "no\tline\t8\t1\n"),
    ("7\t0\n", "no\tline\t8\t1\n"),
    ("show\r\n", "no\tline\t8\t1\n"),
    ("grant\t1\t0\t2\n", "no\tline\t8\t1\n"),
    ("stop\t01\n", "no\tline\t8\t1\n"),
    ("book\n", "no\tline\t9\t1\n"),
    ("book\t01\n", "no\tline\t9\t2\n"),
    ("book\t0\t1\t\n", "no\tline\t9\t4\n"),
    ("book\t\t\t\t\n", "no\tline\t9\t5\n"),
    ("show\t0\t0\n", "no\tline\t9\t3\n"),
    ("open\t1\t1\t1\t0\n", "no\tline\t9\t5\n"),
    ("open\t1\t1\t1\t0\t1\t1\n", "no\tline\t9\t7\n"),
    ("book\t01\tx\n", "no\tline\t10\t2\n"),
    ("book\t\t1\n", "no\tline\t10\t2\n"),
    ("book\t0\t\n", "no\tline\t10\t3\n"),
    ("book\t0\t01\n", "no\tline\t10\t3\n"),
    ("book\t00\t1\n", "no\tline\t10\t2\n"),
    ("open\t1\t1\t1\t0\tx\n", "no\tline\t10\t6\n"),
];

const FAULTY_ENDS: &[(&str, &str)] = &[
    ("show\t4294967295\n", "no\tboard\t2\t0\n"),
    ("show\t4294967296\n", "no\tline\t10\t2\n"),
    ("show\t9999999999\n", "no\tline\t10\t2\n"),
    ("show\t10000000000\n", "no\tline\t10\t2\n"),
    ("show\t00000000000\n", "no\tline\t10\t2\n"),
    ("book\t9999999999\t1\n", "no\tline\t10\t2\n"),
    ("show\t+1\n", "no\tline\t10\t2\n"),
    ("show\t-1\n", "no\tline\t10\t2\n"),
    ("show\t 1\n", "no\tline\t10\t2\n"),
    ("show\t1 \n", "no\tline\t10\t2\n"),
    ("show\t0\r\n", "no\tline\t10\t2\n"),
    ("show\t1.0\n", "no\tline\t10\t2\n"),
    ("show\t:\n", "no\tline\t10\t2\n"),
    ("show\t/\n", "no\tline\t10\t2\n"),
    ("show\t0\n", "ok\t0\n"),
    ("", "no\tline\t11\t0\n"),
    ("show\t0", "no\tline\t11\t0\n"),
    ("show\n0\n", "no\tline\t11\t0\n"),
    ("\n\n", "no\tline\t11\t0\n"),
    ("stop", "no\tline\t11\t0\n"),
    // 80 bytes with the line feed, and 81
    (
        "show\t11111111112222222222333333333344444444445555555555666666666677777777771234\n",
        "no\tline\t10\t2\n",
    ),
    (
        "show\t111111111122222222223333333333444444444455555555556666666666777777777712345\n",
        "no\tline\t11\t0\n",
    ),
    (
        "stop 111111111122222222223333333333444444444455555555556666666666777777777712345\n",
        "no\tline\t11\t0\n",
    ),
    (
        "show\t\t1111111112222222222333333333344444444445555555555666666666677777777771234\n",
        "no\tline\t9\t3\n",
    ),
];

#[test]
fn faulty_lines(rt: HostRuntime) -> Result<(), Fail> {
    converse(&rt, rt.alloc(), FAULTY_WORDS)?;
    converse(&rt, rt.alloc(), FAULTY_ENDS)
}

// What a page too short, a line too long to keep and a full journal leave behind.
#[test]
fn pages_and_journals(rt: HostRuntime) -> Result<(), Fail> {
    short_pages(&rt, Session::new(Board::new(rt.alloc())?, Lowest));
    full_journal(&rt, Board::new(rt.alloc())?);
    closing_lines(&rt);
    Ok(())
}

fn noted(line: u64, refusal: Refusal, field: u32) -> LineFault {
    LineFault {
        line,
        fault: Fault { refusal, field },
    }
}

// A page of so few bytes is too short, and stays as it was.
fn too_short(rt: &impl Abort, desk: &mut Desk, line: Option<&[u8]>, room: usize) {
    let mut page = [b'#'; 64];
    let answer = desk.handle(line, &mut page[..room.min(63)]);
    assert_eq!(rt; answer, Err(Fault::new(Refusal::Page, 0, 0)));
    holds(rt, &page, "");
}

// 63 bytes are too few, whatever the line is; then nothing is counted.
fn short_pages(rt: &impl Abort, session: Session<Lowest>) {
    let mut reports = [Report::default(); 1];
    let mut faults = [LineFault::blank(); 2];
    let mut page = [b'#'; 64];
    let mut desk = Desk {
        session,
        reports: Journal::new(&mut reports),
        faults: Journal::new(&mut faults),
    };
    too_short(rt, &mut desk, Some(b"book\t0\t1\n"), 63);
    too_short(rt, &mut desk, Some(b"stop"), 0);
    too_short(rt, &mut desk, None, 63);
    assert_eq!(rt; (desk.session.lines, desk.session.refusals), (0, 0));
    assert_eq!(rt; desk.handle(Some(b"book\t0\t1\n"), &mut page), Ok(5));
    holds(rt, &page, "ok\t1\n");
    assert_eq!(rt; desk.handle(None, &mut page), Ok(13));
    holds(rt, &page, "no\tline\t11\t0\n");
    assert_eq!(rt; desk.handle(Some(b"book\t7\n"), &mut page), Ok(12));
    assert_eq!(rt; desk.handle(Some(b"step\t2\n"), &mut page), Ok(13));
    assert_eq!(rt; (desk.session.lines, desk.session.refusals), (4, 3));
    assert_eq!(rt;
        desk.faults.entries(),
        [noted(2, Refusal::Line, 0), noted(3, Refusal::Fields, 2)].as_slice()
    );
}

// The answer to a line on a page of its own, or its fault, which leaves page and journal as they were.
fn answered(
    rt: &impl Abort,
    board: &mut Board,
    journal: &mut Journal<Report>,
    line: &str,
    must: Result<&str, Refusal>,
) {
    let mut page = [b'#'; 64];
    let before = journal.len();
    let answer = answer(board, &mut Lowest, journal, line.as_bytes(), &mut page);
    assert_eq!(rt;
        answer,
        must.map(|text| text.len())
            .map_err(|refusal| Fault { refusal, field: 0 })
    );
    assert!(rt; must.is_ok() || journal.len() == before);
    holds(rt, &page, must.unwrap_or(""));
}

fn full_journal(rt: &impl Abort, mut board: Board) {
    let lines = [
        ("open\t1\t9\t1\t0\t1\n", Ok("ok\n")),
        ("book\t0\t9\n", Ok("ok\t1\n")),
        ("drive\t1\t1\n", Ok("ok\t1\tseeking\n")),
        ("drive\t1\t9\n", Ok("ok\t1\tseeking\n")),
        ("drive\t1\t9\n", Err(Refusal::Full)),
        ("drive\t1\t0\n", Err(Refusal::Full)),
        ("drive\t2\t0\n", Err(Refusal::Unknown)),
        ("step\t1\n", Ok("ok\t1\t5\t2\t1\n")),
    ];
    let mut places = [Report::default(); 2];
    let mut journal = Journal::new(&mut places);
    for (line, must) in lines {
        answered(rt, &mut board, &mut journal, line, must);
    }
    assert_eq!(rt; journal.len(), 2);
    journal.clear();
    let last = Ok("ok\t2\tseeking\n");
    answered(rt, &mut board, &mut journal, "drive\t1\t9\n", last);
}

// The writing calls at 63 and 64 bytes, with the largest figures.
fn closing_lines(rt: &impl Abort) {
    let mut page = [b'#'; 64];
    let fault = Fault::new(Refusal::Figure, 81, 81);
    let short = Err(Fault::new(Refusal::Page, 0, 0));
    assert_eq!(rt; write_no(&mut page[..63], fault), short);
    assert_eq!(rt; write_fault(&mut page[..63], 1, fault), short);
    assert_eq!(rt; write_end(&mut page[..63], 1, 0), short);
    holds(rt, &page, "");
    assert_eq!(rt; write_no(&mut page, fault), Ok(14));
    holds(rt, &page, "no\tline\t10\t81\n");
    assert_eq!(rt; write_end(&mut page, 7, 2), Ok(8));
    holds(rt, &page, "end\t7\t2\n10\t81\n");
    let mut fresh = [b'#'; 64];
    assert_eq!(rt; write_fault(&mut fresh, u64::MAX, fault), Ok(38));
    holds(rt, &fresh, "fault\t18446744073709551615\tline\t10\t81\n");
    assert_eq!(rt; write_end(&mut fresh, u64::MAX, u64::MAX), Ok(46));
    holds(
        rt,
        &fresh,
        "end\t18446744073709551615\t18446744073709551615\n",
    );
}
