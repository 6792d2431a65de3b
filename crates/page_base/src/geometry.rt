ghost use Rattle.std.specs.Prelude.{◌≡◌, ◌<◌, ◌/◌, ◌%◌, SomeIff};
ghost use Rattle.page_base.specs.Drive.{IsDrive, meta_pages, total_pages, die_share};

use std::marker::Model;

/// How many data blocks and dies a drive has, within the limits of 1 to 65,536 blocks and 1 to 16 dies.
///
/// Image page p is page p / dies of die p mod dies.
#[derive(Clone, Copy, Debug, PartialEq, Eq)]
pub struct Geometry {
    blocks: u32,
    dies: u32,
}

impl Model for Geometry {
    ghost use Rattle.page_base.specs.Drive.{Drive, IsDrive};

    ghost Value = { Drive };

    ghost view = { λ g. record { blocks = g.blocks; dies = g.dies } };

    ghost invariant = { λ g. IsDrive g.blocks g.dies };

    ghost inverse = { λ d. record { blocks = d.blocks; dies = d.dies } };
}

impl Geometry {
    /// The geometry with these numbers; `None` exactly where one of them breaks its limit.
    pub fn new(blocks: u32, dies: u32) -> Option<Geometry>
        ensures { SomeIff result (IsDrive blocks dies) (record { blocks = blocks; dies = dies }) }
    {
        if blocks == 0 || blocks > 65536 || dies == 0 || dies > 16 {
            return None;
        }
        Some(Geometry { blocks, dies })
    }

    /// How many data blocks the drive has.
    pub fn blocks(&self) -> u32
        ensures value { result ≡ self.now.blocks }
        ensures limits { IsDrive self.now.blocks self.now.dies }
    {
        self.blocks
    }

    /// How many dies the drive has.
    pub fn dies(&self) -> u32
        ensures value { result ≡ self.now.dies }
        ensures limits { IsDrive self.now.blocks self.now.dies }
    {
        self.dies
    }

    /// How many pages of meta data the image has; the data blocks follow them.
    pub fn meta_pages(&self) -> u32
        ensures value { result ≡ meta_pages self.now.blocks }
        ensures limits { IsDrive self.now.blocks self.now.dies }
    {
        129 + self.blocks.div_ceil(256) + self.blocks.div_ceil(32768)
    }

    /// How many pages the image has.
    pub fn total(&self) -> u32
        ensures value { result ≡ total_pages self.now.blocks }
        ensures limits { IsDrive self.now.blocks self.now.dies }
    {
        self.meta_pages() + self.blocks
    }

    /// The die of an image page.
    pub fn die_of(&self, page: u32) -> u32
        ensures value { result ≡ page % self.now.dies }
        ensures limits { IsDrive self.now.blocks self.now.dies }
    {
        page % self.dies
    }

    /// The place of an image page on its die.
    #[tactic(auto, using(crate::proofs::Shares::place_inside))]
    pub fn place_of(&self, page: u32) -> u32
        ensures value { result ≡ page / self.now.dies }
        ensures limits { IsDrive self.now.blocks self.now.dies }
        ensures inside { page < total_pages self.now.blocks → result < die_share (total_pages self.now.blocks) self.now.dies (page % self.now.dies) }
    {
        page / self.dies
    }

    /// How many of the image's pages lie on a die; none on one that the drive lacks.
    #[tactic(auto, using(crate::proofs::Shares::die_share_closed, crate::proofs::Shares::die_share_none))]
    pub fn die_pages(&self, die: u32) -> u32
        ensures value { result ≡ die_share (total_pages self.now.blocks) self.now.dies die }
        ensures limits { IsDrive self.now.blocks self.now.dies }
    {
        if die >= self.dies {
            return 0;
        }
        (self.total() + self.dies - 1 - die) / self.dies
    }
}

#[cfg(test)]
mod tests {
    use super::*;

    #[test]
    fn sizes_of_the_smallest_and_the_largest_drive(rt: HostRuntime) {
        let Some(small) = Geometry::new(1, 1) else {
            return assert!(rt; false);
        };
        assert_eq!(rt; (small.meta_pages(), small.total()), (131, 132));
        let Some(large) = Geometry::new(65536, 16) else {
            return assert!(rt; false);
        };
        assert_eq!(rt; (large.meta_pages(), large.total()), (387, 65923));
        assert_eq!(rt; (large.die_of(65922), large.place_of(65922)), (2, 4120));
        assert_eq!(rt;
            (large.die_pages(2), large.die_pages(3), large.die_pages(16)),
            (4121, 4120, 0)
        );
        for (blocks, dies) in [(0, 1), (65537, 1), (1, 0), (1, 17)] {
            assert!(rt;
                Geometry::new(blocks, dies).is_none(),
                "{blocks} blocks, {dies} dies"
            );
        }
    }
}
