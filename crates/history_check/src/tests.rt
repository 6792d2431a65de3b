use crate::{Verdict, check_history};
use call_text::read_script;
use plain_files::Reply;
use plain_run::Plain;
use std::alloc::Global;
use std::test::Fail;
use transcript_text::read_transcript;

const SCRIPT: &[u8] =
    b"a: create f\na: append f text:ab\nb: await a.2\nb: append f text:c\nb: stat f\n";

// The verdict on some lines, ahead of the last.
fn verdict_on(alloc: Global, lines: &str) -> Result<Verdict, &'static str> {
    let script = read_script(alloc, SCRIPT).map_err(|_| "a script")?;
    let text = format!(in alloc; "{lines}places host=0 drive=0 reads=0 writes=0").map_err(
        |_| "memory",
    )?;
    let transcript = read_transcript(alloc, text.as_bytes(), &script).map_err(|_| "a transcript")?;
    let mut plain = Plain::new(alloc, 1).map_err(|_| "memory")?;
    check_history(alloc, &mut plain, &script, &transcript).map_err(|_| "memory")
}

#[test]
fn histories_are_legal(rt: HostRuntime) -> Result<(), Fail> {
    for lines in [
        "#1 a.1 id 1\n#2 a.2 at 0\n#3 b.1 at 2\n#4 b.2 len 3\n",
        "#1 a.1 id 1\n#2 a.2 nomemory\n#3 b.1 at 0\n#4 b.2 fault\n",
    ] {
        let verdict = verdict_on(rt.alloc(), lines)?;
        assert!(rt;
            matches!(&verdict, Verdict::Legal { calls: 4 }),
            "at {lines}"
        );
    }
    Ok(())
}

#[test]
fn wrong_numbers_are_told(rt: HostRuntime) -> Result<(), Fail> {
    for (lines, at) in [
        ("#1 a.1 id 1\n#2 b.1 at 0\n", 2),
        ("#1 a.1 id 1\n#2 a.1 id 2\n", 2),
        ("#1 a.1 id 1\n#2 a.2 at 0\n#3 b.1 at 2\n", 4),
        (
            "#1 a.1 id 1\n#2 a.2 at 0\n#3 b.1 at 2\n#4 b.2 len 3\n#5 b.3 len 3\n",
            5,
        ),
    ] {
        let verdict = verdict_on(rt.alloc(), lines)?;
        assert!(rt;
            matches!(&verdict, Verdict::Order { number } if *number == at),
            "at {lines}"
        );
    }
    let verdict = verdict_on(rt.alloc(), "#1 a.1 id 1\n#2 a.2 at 1\n")?;
    assert!(rt;
        matches!(
            &verdict,
            Verdict::Differs {
                number: 2,
                expected: Reply::At(0)
            }
        )
    );
    Ok(())
}
