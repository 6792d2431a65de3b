use crate::image_tests::{asked, empty_room, gives};
use stack_top::Status;
use std::test::Fail;

const PLACES: &str = "places host=1 drive=0 reads=0 writes=0\n";

// The digests were worked out by a plain model of the files in another language.
#[test]
fn a_bench_prints_its_two_lines(rt: HostRuntime) -> Result<(), Fail> {
    let alloc = rt.alloc();
    let mut room = empty_room(alloc);
    let none =
        "bench start=1 calls=0 replies=5 sha256=6669ed96a859d145315229049b712260ae18e5386373942fb05baff134d84ff8\nplaces host=0 drive=0 reads=0 writes=0\n";
    let four =
        "bench start=8 calls=4 replies=9 sha256=36d4909c8769a585a9986cc4517cb1c953824a7869f39ec9304f65a47cd2320a\n";
    let ten =
        "bench start=1 calls=10 replies=15 sha256=768d8353383200834403f6f07c0f13d25f42813ac684352db1b4ee15c645f59f\n";
    let four = format!(in alloc; "{four}{PLACES}")?;
    let ten = format!(in alloc; "{ten}{PLACES}")?;
    for (line, status, print) in [
        ("bench 1 0", Status::Ok, none),
        ("bench 8 4", Status::Ok, four.as_str()),
        ("bench 1 10", Status::Ok, ten.as_str()),
        ("bench 1 10", Status::Ok, ten.as_str()),
        ("bench 1", Status::Usage, "usage\n"),
        ("bench 1 9996", Status::Usage, "usage\n"),
        ("bench 01 1", Status::Usage, "usage\n"),
        ("bench 18446744073709551616 1", Status::Usage, "usage\n"),
        ("bench 1 1 1", Status::Usage, "usage\n"),
    ] {
        assert!(rt;
            gives(alloc, line, &mut room, "", status, print)?,
            "at {line}"
        );
    }
    Ok(())
}

#[test]
fn a_longer_bench_has_the_digest_of_plain_files(rt: HostRuntime) -> Result<(), Fail> {
    let alloc = rt.alloc();
    let mut room = empty_room(alloc);
    let (status, out) = asked(alloc, "bench 7 60", &mut room, 200_000)?;
    let first =
        b"bench start=7 calls=60 replies=65 sha256=2e4c32a3323a993deb06467b5d39958cc5b92b5e6bbf81bc4f6995e0c7b46d98\nplaces ";
    assert_eq!(rt; status, Status::Ok);
    assert!(rt; out.bytes().starts_with(first.as_slice()));
    Ok(())
}
