//! Counting that stops at 2^32.
ghost use Rattle.std.specs.Prelude.{◌≡◌};
ghost use Rattle.module_grammar.specs.State.{up, number_up, as_number};

/// `count` and `more`, but not past 2^32.
pub fn up(count: u64, more: u64) -> u64
    ensures { result ≡ up count more }
{
    count + more.min(4_294_967_296u64.saturating_sub(count))
}

/// `number` and `more`, but not past 2^32 - 1.
pub fn number_up(number: u32, more: u64) -> u32
    ensures { result ≡ number_up number more }
{
    let room = u64::from(4_294_967_295u32 - number);
    number + more.min(room) as u32
}

/// The number, or 2^32 - 1 where it is greater.
pub fn as_number(number: u64) -> u32
    ensures { result ≡ as_number number }
{
    number.min(4_294_967_295) as u32
}
