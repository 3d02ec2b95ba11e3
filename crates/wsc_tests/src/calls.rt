//! Whole calls over memory.

ghost use Rattle.std.specs.Prelude.{◌<◌};

use crate::replies::{AskedCall, CallReply, ReplyEnds, SOUND, call};
use fire_crew::Free;
use std::alloc::Global;
use std::sync::Wait;
use std::test::Fail;
use std::thread::Threads;
use ws_words::NoMemory;

// A line, a job, what is answered, and the status code.
struct Row {
    line: &'static str,
    job: &'static [u8],
    answer: &'static str,
    code: u8,
}

const ROWS: &[Row] = &[
    Row {
        line: "run",
        job: b" \t\r\nproc\tmain\r(\n)\t{\r\nprint\n12\t;\rprint 3;}\r\n",
        answer: "12\n3\nhalt\n",
        code: 0,
    },
    Row {
        line: "run",
        job: b"# \xc3\xa9 {\nproc main() { # %input\n#\nprint 1; ##\xff;\n}# the end",
        answer: "1\nhalt\n",
        code: 0,
    },
    Row {
        line: "run",
        job: b"proc main() { var x, y; print 0 - 1; }\r\n%input\r\n 007\t18446744073709551615\r\n",
        answer: "18446744073709551615\nhalt\n",
        code: 0,
    },
    Row {
        line: "run",
        job: b"proc main() { var x; x = 1; }",
        answer: "halt\n",
        code: 0,
    },
    Row {
        line: "plain --memory --stats",
        job: b"array a[2]; proc main() { var x; read x; a[1] = x + 1; } %input\n%input\n4",
        answer: "refused 1:58 syntax\n",
        code: 2,
    },
    Row {
        line: "plain --memory --stats",
        job: b"array a[2]; proc main() { var x; read x; a[1] = x + 1; }\n%input\n4",
        answer: "halt\na = [0, 5]\nturns 2\n",
        code: 0,
    },
    Row {
        line: "plain --memory --stats",
        job: b"array e[0]; array a[2]; proc main() { print 1; a[1] = 5; a[2] = 9; print 3; }",
        answer: "1\nfault a\ne = []\na = [0, 5]\n",
        code: 8,
    },
    Row {
        line: "run --memory --budget 1000",
        job: b"array e[0]; array a[2]; proc main() { print 1; a[1] = 5; a[2] = 9; print 3; }",
        answer: "1\nfault a\ne = []\na = [0, 5]\n",
        code: 8,
    },
    Row {
        line: "run --stats --budget 0",
        job: b"proc main() { while (1) { print 1; } }",
        answer: "budget\nfirings 0\n",
        code: 3,
    },
    Row {
        line: "plain --turns 5",
        job: b"proc main() { while (1) { print 1; } }",
        answer: "1\n1\nturns\n",
        code: 3,
    },
    Row {
        line: "format",
        job: b"proc main(){print(1+2)*3;}\n%input\nx",
        answer: "refused 3:1 input\n",
        code: 2,
    },
    Row {
        line: "format",
        job: b"proc main(){print(1+2)*3;}\n%input\n5",
        answer: "proc main() {\n  print (1 + 2) * 3;\n}\n",
        code: 0,
    },
    Row {
        line: "check",
        job: b"wavescalar 1\nwave 1\nblock 1\nstop\nend\r",
        answer: "refused 5 line\n",
        code: 2,
    },
];

// Whether a job is answered as its row says, where calls move so many bytes.
fn is_answered<R: Threads + Wait + Sync>(
    rt: &R,
    alloc: Global,
    row: &Row,
    piece: usize,
) -> Result<bool, NoMemory>
    requires { 0 < piece }
{
    let asked = AskedCall {
        line: row.line,
        text: row.job,
        wanted: row.answer,
    };
    let reply = call(rt, alloc, asked, ReplyEnds { piece, ..SOUND }, &Free)?;
    Ok(reply.has(row.code) && reply.flushed == row.answer.len() && reply.left == 0)
}

// Whether it is so in pieces of one byte, of three, and in one.
fn is_answered_in_pieces<R: Threads + Wait + Sync>(
    rt: &R,
    alloc: Global,
    row: &Row,
) -> Result<bool, NoMemory> {
    let by_one = is_answered(rt, alloc, row, 1)?;
    let by_three = is_answered(rt, alloc, row, 3)?;
    Ok(by_one && by_three && is_answered(rt, alloc, row, 100_000)?)
}

#[test]
fn jobs_are_answered(rt: HostRuntime) -> Result<(), Fail> {
    let alloc = rt.alloc();
    for row in ROWS {
        assert!(rt; is_answered_in_pieces(&rt, alloc, row)?, "{}", row.answer);
    }
    Ok(())
}

// Whether a text is refused so, and this much of it was left to read.
fn is_refused<R: Threads + Wait + Sync>(
    rt: &R,
    alloc: Global,
    text: &[u8],
    wanted: &str,
    left: usize,
) -> Result<bool, NoMemory> {
    let asked = AskedCall {
        line: "run",
        text,
        wanted,
    };
    let reply = call(rt, alloc, asked, SOUND, &Free)?;
    Ok(reply.has(2) && reply.left == left)
}

// Whether a mebibyte of spaces is read whole, and nine bytes more are one too many.
fn has_at_most_a_mebibyte<R: Threads + Wait + Sync>(
    rt: &R,
    alloc: Global,
) -> Result<bool, NoMemory> {
    let mut text = vec![in alloc; b' '; 1_048_576]?;
    let most = is_refused(rt, alloc, &text, "refused 1:1048577 main\n", 0)?;
    text.extend_from_slice(b" and more")?;
    Ok(most && is_refused(rt, alloc, &text, "refused long\n", 8)?)
}

#[test]
fn a_job_has_at_most_a_mebibyte(rt: HostRuntime) -> Result<(), Fail> {
    let alloc = rt.alloc();
    assert!(rt; has_at_most_a_mebibyte(&rt, alloc)?);
    Ok(())
}

// Whether a line is none, and nothing was read.
fn is_no_line<R: Threads + Wait + Sync>(
    rt: &R,
    alloc: Global,
    line: &str,
) -> Result<bool, NoMemory> {
    let asked = AskedCall {
        line,
        text: b"proc main() { }",
        wanted: "",
    };
    let reply = call(rt, alloc, asked, SOUND, &Free)?;
    Ok(reply.status.code() == 1 && reply.left == 15)
}

const NO_LINES: &[&str] = &[
    "",
    "Run",
    "run run",
    "--help",
    "-h",
    "run --workers",
    "plan",
];

#[test]
fn nothing_is_read_where_the_words_are_no_line(rt: HostRuntime) -> Result<(), Fail> {
    let alloc = rt.alloc();
    for line in NO_LINES {
        assert!(rt; is_no_line(&rt, alloc, line)?, "{line}");
    }
    Ok(())
}

// The reply where calls move so many bytes, and these calls of the source and the sink fail.
fn cut_at<R: Threads + Wait + Sync>(
    rt: &R,
    alloc: Global,
    text: &[u8],
    ends: ReplyEnds,
    wanted: &str,
) -> Result<CallReply, NoMemory>
    requires { 0 < ends.piece }
{
    let asked = AskedCall {
        line: "run",
        text,
        wanted,
    };
    call(rt, alloc, asked, ends, &Free)
}

// Calls move one byte, and none fails.
const BY_ONE: ReplyEnds = ReplyEnds { piece: 1, ..SOUND };

// The last call of the source is the one that finds its end.
#[test]
fn a_fault_of_the_source_is_named(rt: HostRuntime) -> Result<(), Fail> {
    let alloc = rt.alloc();
    for at in 1..18 {
        let ends = ReplyEnds {
            read_fault: at,
            ..BY_ONE
        };
        let (wanted, code) = if at < 17 {
            ("fault read\n", 4)
        } else {
            ("halt\n", 0)
        };
        let reply = cut_at(&rt, alloc, b"proc main() { }", ends, wanted)?;
        assert!(rt; reply.has(code), "{at}");
    }
    Ok(())
}

const SEVEN: &[u8] = b"proc main() { print 7; }";

const SUM: &[u8] =
    b"proc main() { var i, s; i = 1; while (i <= 10) { s = s + i; i = i + 1; } print s; }";

// A job, how many bytes a call moves, which call of the sink fails, what goes out, the status code, and how
// much is flushed. The last call is the flush.
type Cut = (&'static [u8], usize, u64, &'static str, u8, usize);

const CUTS: &[Cut] = &[
    (SEVEN, 1, 1, "", 5, 0),
    (SEVEN, 1, 2, "7", 5, 0),
    (SEVEN, 1, 3, "7\n", 5, 0),
    (SEVEN, 1, 7, "7\nhalt", 5, 0),
    (SEVEN, 1, 8, "7\nhalt\n", 5, 0),
    (SUM, 2, 1, "", 5, 0),
    (SUM, 2, 2, "55", 5, 0),
    (SUM, 2, 3, "55\nh", 5, 0),
    (SUM, 2, 4, "55\nhal", 5, 0),
    (SUM, 2, 5, "55\nhalt\n", 5, 0),
    (SUM, 2, 6, "55\nhalt\n", 0, 8),
];

// Whether a call is cut so.
fn is_cut<R: Threads + Wait + Sync>(rt: &R, alloc: Global, cut: &Cut) -> Result<bool, NoMemory> {
    let (text, piece, at, front, code, flushed) = *cut;
    let ends = ReplyEnds {
        piece: piece.max(1),
        read_fault: 0,
        write_fault: at,
    };
    let reply = cut_at(rt, alloc, text, ends, front)?;
    Ok(reply.has(code) && reply.flushed == flushed)
}

#[test]
fn a_fault_of_the_sink_cuts_the_answer(rt: HostRuntime) -> Result<(), Fail> {
    let alloc = rt.alloc();
    for cut in CUTS {
        assert!(rt; is_cut(&rt, alloc, cut)?, "{}", cut.2);
    }
    let both = ReplyEnds {
        piece: 1,
        read_fault: 1,
        write_fault: 2,
    };
    let reply = cut_at(&rt, alloc, b"", both, "f")?;
    assert!(rt; reply.has(5) && reply.flushed == 0);
    Ok(())
}
