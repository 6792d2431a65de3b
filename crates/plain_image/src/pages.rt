//! Pages of files.
ghost use Rattle.std.specs.Prelude.{◌≡◌, ◌≤◌, ◌^◌};
ghost use Rattle.page_base.specs.Bytes.{Pages};

/// How many pages so many bytes fill.
pub fn page_count(len: usize) -> u32
    requires { len ≤ 2 ^ 28 }
    ensures { result ≡ Pages len }
{
    (len as u32).div_ceil(4096)
}
