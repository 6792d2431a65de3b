ghost use Rattle.std.specs.Prelude.{◌≡◌, ◌≤◌, ◌^◌};
ghost use Rattle.dispatcher.specs.Costs.{AreCounts, host_cost, drive_cost, Pick, Learn};

use crate::side::Side;

/// What is known of a function: `e`, the instructions that it runs for a page, as its past runs tell.
#[derive(Clone, Copy, Debug, PartialEq, Eq)]
pub struct Profile {
    pub e: u64,
}

/// What the cost of a call depends on, counted in pages.
#[derive(Clone, Copy, Debug, PartialEq, Eq)]
pub struct Counts {
    /// The pages of the call's span.
    pub pages: u32,
    /// Those that are written and have no copy, so that flash must be read for them.
    pub missing: u32,
    /// Those that have a copy at the host.
    pub host: u32,
    /// The pages of the call's output.
    pub out: u32,
    /// The span's unclean pages that have a copy at the host.
    pub unclean: u32,
}

/// Reading flash, moving pages to the host that lacks them, and running the function there.
fn host_cost(e: u64, counts: &Counts) -> u64
    requires units { e ≤ 2 ^ 32 }
    requires counts { AreCounts counts.now }
    ensures { result ≡ host_cost e counts.now }
{
    100 * u64::from(counts.missing)
        + 40 * u64::from(counts.pages - counts.host)
        + e * u64::from(counts.pages)
}

/// Reading flash, moving unclean pages to the drive and the output back, and running the function there.
fn drive_cost(e: u64, counts: &Counts) -> u64
    requires units { e ≤ 2 ^ 32 }
    requires counts { AreCounts counts.now }
    ensures { result ≡ drive_cost e counts.now }
{
    100 * u64::from(counts.missing)
        + 40 * u64::from(counts.out + counts.unclean)
        + 4 * e * u64::from(counts.pages)
}

/// The side where a call costs less; the host where both cost the same.
pub fn pick(profile: &Profile, counts: &Counts) -> Side
    requires units { profile.now.e ≤ 2 ^ 32 }
    requires counts { AreCounts counts.now }
    ensures { result ≡ Pick profile.now.e counts.now }
{
    if drive_cost(profile.e, counts) < host_cost(profile.e, counts) {
        Side::Drive
    } else {
        Side::Host
    }
}

/// Learns from a run that used so many units of fuel over so many pages.
pub fn learn(profile: &mut Profile, used: u64, pages: u32)
    requires units { profile.old.e ≤ 2 ^ 32 }
    requires fuel { used ≤ 2 ^ 32 }
    requires pages { pages ≤ 65 }
    ensures value { profile.new ≡ record { e = Learn profile.old.e used pages } }
    ensures units { profile.new.e ≤ 2 ^ 32 }
{
    let per_page = used / u64::from(pages.max(1));
    profile.e = (3 * profile.e + per_page) / 4;
}

#[cfg(test)]
mod tests {
    use super::*;

    #[test]
    fn a_costly_function_moves_to_the_host(rt: HostRuntime) {
        let mut profile = Profile { e: 0 };
        let counts = Counts {
            pages: 64,
            missing: 64,
            host: 0,
            out: 1,
            unclean: 0,
        };
        assert_eq!(rt; pick(&profile, &counts), Side::Drive);
        learn(&mut profile, 1_572_872, 64);
        assert_eq!(rt; profile.e, 6144);
        assert_eq!(rt; pick(&profile, &counts), Side::Host);
    }
}
