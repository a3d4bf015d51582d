use frames::answer::{Answer, Told};
use frames::write::write_answer;
use std::process::Abort;
use std::test::Fail;
use yard::force::Run;

// The answer as it is written, against the line that it should be.
fn written(rt: &impl Abort, answer: Answer, line: &[u8]) -> Result<(), Fail> {
    let mut out = [0; 80];
    let count = write_answer(answer, &mut out).ok_or("no room")?;
    assert!(rt; count <= 80);
    assert!(rt; &out[0..count] == line);
    Ok(())
}

#[test]
fn answers_of_a_placing(rt: HostRuntime) -> Result<(), Fail> {
    written(&rt, Answer::Level { cents: 12 }, b"830000000C71\n")?;
    written(
        &rt,
        Answer::Site {
            pillar: 0,
            hx: 8,
            hy: 0,
        },
        b"8400000000080000000074\n",
    )?;
    written(
        &rt,
        Answer::Site {
            pillar: 1,
            hx: -4,
            hy: -3,
        },
        b"8401FFFFFFFCFFFFFFFD88\n",
    )?;
    let told = Told {
        from: 0,
        to: 1,
        gap: 10,
        total: 8,
        pillars: &[0],
    };
    written(&rt, Answer::Chain(told), b"8700010000000A00000008010065\n")?;
    written(&rt, Answer::Clash(told), b"8800010000000A00000008010064\n")?;
    written(&rt, Answer::Floor, b"857B\n")
}

fn fixed(run: Run) -> Answer<'static> {
    Answer::Fixed { run }
}

fn priced(run: Run, length: u32, cents: u32) -> Answer<'static> {
    Answer::RunPriced { run, length, cents }
}

fn seen(mast: u8, length: u32) -> Answer<'static> {
    Answer::MastSeen { mast, length }
}

#[test]
fn answers_of_the_sheets(rt: HostRuntime) -> Result<(), Fail> {
    let feeder = Run::Feeder {
        mast: 39,
        pillar: 11,
    };
    let link = Run::Link { one: 2, other: 5 };
    written(&rt, fixed(link), b"8601020572\n")?;
    written(
        &rt,
        priced(feeder, 4, 3_000_000_000),
        b"8900270B00000004B2D05E0061\n",
    )?;
    written(&rt, seen(7, 65_536), b"8A07000100006E\n")
}

#[test]
fn nothing_is_written_where_there_is_no_room(rt: HostRuntime) {
    let mut out = [7; 4];
    assert!(rt; write_answer(seen(7, 1), &mut out).is_none());
    assert!(rt; out == [7; 4]);
}
