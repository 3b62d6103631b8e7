ghost use Rattle.std.specs.Prelude.{◌≡◌, ◌≤◌};
ghost use Rattle.mh_generated.specs.Counts.{site_count, thread_count};

/// How many calls each thread makes.
pub(crate) const CALLS_OF_THREAD: u32 = 1000;

/// How many call sites there are: 1 to 64.
pub(crate) fn site_count(number: u32) -> u32
    ensures count { result ≡ site_count number }
    ensures some { 1 ≤ result }
    ensures few { result ≤ 64 }
{
    1 + number % 64
}

/// How many threads there are: 1 to 8.
pub(crate) fn thread_count(number: u32) -> u32
    ensures count { result ≡ thread_count number }
    ensures few { result ≤ 8 }
{
    1 + number % 8
}
