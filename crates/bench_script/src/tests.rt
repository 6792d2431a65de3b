//! A script and a line that are worked out by other means.

use crate::{digest_line, make_script};
use std::test::Fail;

#[test]
fn a_script_has_its_drawn_lines(rt: HostRuntime) -> Result<(), Fail> {
    let alloc = rt.alloc();
    let script = make_script(alloc, 8, 4)?;
    let drawn = script.as_str().split_once("a: load lines func lines\n");
    let drawn = match drawn {
        Some((_, drawn)) => drawn,
        None => "",
    };
    assert_eq!(rt;
        drawn,
        "a: write f0 49416 fill:8f*650\nc: readl f1 38044 7349 lines 60000 8 hex:\na: read f3 30311 6987\nb: trunc f1 21989\n"
    );
    Ok(())
}

#[test]
fn a_start_of_0_is_that_of_1(rt: HostRuntime) -> Result<(), Fail> {
    let alloc = rt.alloc();
    let zero = make_script(alloc, 0, 2)?;
    let one = make_script(alloc, 1, 2)?;
    assert_eq!(rt; zero.as_str(), one.as_str());
    assert!(rt;
        one.as_str()
            .ends_with("b: read f1 32805 4709\nb: read f1 2303 1326\n")
    );
    Ok(())
}

#[test]
fn replies_have_their_digest(rt: HostRuntime) -> Result<(), Fail> {
    let replies = b"#1 a.1 id 1\n#2 b.1 id 2\n#3 c.1 id 3\n#4 d.1 id 4\n#5 a.2 ok\n";
    let line = digest_line(rt.alloc(), 1, 0, 5, replies.as_slice())?;
    assert_eq!(rt;
        line.as_str(),
        "bench start=1 calls=0 replies=5 sha256=6669ed96a859d145315229049b712260ae18e5386373942fb05baff134d84ff8\n"
    );
    Ok(())
}
