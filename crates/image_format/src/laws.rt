//! Laws of images: what is written is read again.
ghost use Rattle.image_format.specs.Whole.{Remounts};

/// Mounting the image of meta data and data blocks gives the files that they stand for.
pub fn remounts()
    ensures { Remounts }
{}
