use crate::image_tests::{empty_room, gives};
use stack_top::Status;
use std::test::Fail;

// Three records of 8 bytes and a rest of 3: numbers 0, 5 and 9, with marks 0, 1 and 0.
const RECORDS: &str =
    "a: create f\na: write f 0 hex:000000000000000005000000010000000900000000000000aabbcc\n";

#[test]
fn records_of_a_file_are_selected(rt: HostRuntime) -> Result<(), Fail> {
    let alloc = rt.alloc();
    let mut room = empty_room(alloc);
    for (line, text, status, print) in [
        (
            "solo - S img",
            RECORDS,
            Status::Ok,
            "#1 a.1 id 1\n#2 a.2 ok\nplaces host=0 drive=0 reads=0 writes=135\n",
        ),
        (
            "select img f S 8",
            "(and (ge 0 4 5) (not (eq 4 1 1)))",
            Status::Ok,
            "2\nrows 1\n",
        ),
        ("select img f S 8", "(lt 0 4 0)", Status::Ok, "rows 0\n"),
        (
            "select img g S 8",
            "(lt 0 4 0)",
            Status::BadInput,
            "badinput nofile\n",
        ),
        (
            "select img f S 8",
            "(eq 5 4 1)",
            Status::BadInput,
            "badpred field 0\n",
        ),
        (
            "predc S 8 -",
            "(eq 5 4 1)",
            Status::BadInput,
            "badpred field 0\n",
        ),
        (
            "predc S 8 -",
            "(and (eq 0 1 1))",
            Status::BadInput,
            "badpred form 15\n",
        ),
        (
            "predc S 8 -",
            "(eq 0 1 x)",
            Status::BadInput,
            "badpred number 8\n",
        ),
        ("predc S 8 -", "", Status::BadInput, "badpred form 0\n"),
        ("predc S 0 -", "(eq 0 1 1)", Status::Usage, "usage\n"),
        ("predc S 4097 -", "(eq 0 1 1)", Status::Usage, "usage\n"),
    ] {
        assert!(rt; gives(alloc, line, &mut room, text, status, print)?);
    }
    Ok(())
}
