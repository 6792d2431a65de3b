// The steps of a die in memory.
ghost use Rattle.std.specs.Prelude.{◌≡◌, ◌<◌, ◌≤◌, ◌^◌, length};
ghost use Rattle.std.specs.List.{All};
ghost use Rattle.edge_io.specs.Memory.{is_listed};
ghost use Rattle.flash_die.specs.Dies.{next_number, AreWhole};
ghost use Rattle.flash_die.specs.Failures.{spoilt_page};

use page_base::Page;

// The number at which the counts of calls stay.
const LAST_NUMBER: u64 = 1 << 32;

/// The numbers as they are: each has 32 bits.
pub fn bounded(numbers: Vec<u32>) -> Vec<u32>
    ensures same { result ≡ numbers }
    ensures small { All (λ number. number < 2 ^ 32) result.items }
{
    numbers
}

// The pages as they are: each has 4,096 bytes.
pub fn whole(pages: Vec<Page>) -> Vec<Page>
    ensures same { result ≡ pages }
    ensures whole { AreWhole result.items }
{
    for page in &pages {
        // A call of a page tells that it is whole.
        let _ = page.byte(0);
    }
    pages
}

// The number of the next call, after so many.
pub fn next_number(made: u64) -> u64
    requires { made ≤ 2 ^ 32 }
    ensures { result ≡ next_number made }
{
    (made + 1).min(LAST_NUMBER)
}

/// Whether a number is in the list.
pub fn is_listed(number: u64, numbers: &[u32]) -> bool
    ensures { result ≡ is_listed number numbers.now }
{
    numbers.iter().any(|&listed| u64::from(listed) == number)
}

// Fills a page with the bytes that a write leaves where it fails.
pub fn spoil(page: &mut Page)
    ensures bytes { page.new ≡ spoilt_page }
    ensures whole { length page.new ≡ 4096 }
{
    page.patch(0, &[0xa5; 4096]);
}
