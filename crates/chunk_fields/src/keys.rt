// The record's key: two words of 32 bits for one number of 64. No other line puts it together or takes it apart. Assumes nothing.
ghost use Rattle.std.specs.Prelude.{◌≡◌, ◌+◌, ◌*◌, ◌/◌, ◌%◌, ◌^◌, length, set};
ghost use Rattle.machine.specs.View.{key_in};

use sizes::{KEY_HIGH, KEY_LOW};

// What its high half counts.
const HALF: u64 = 4294967296;

fn joined(low: u32, high: u32) -> u64
    ensures { result ≡ low + 2 ^ 32 * high }
{
    u64::from(low) + HALF * u64::from(high)
}

pub fn key_in(r: &[u32]) -> u64
    requires { length r.now ≡ 396 }
    ensures { result ≡ key_in r.now }
{
    joined(r[KEY_LOW], r[KEY_HIGH])
}

pub fn set_key_in(r: &mut [u32], q: u64)
    requires { length r.old ≡ 396 }
    ensures { r.new ≡ set (set r.old 393 (q % 2 ^ 32)) 394 (q / 2 ^ 32) }
{
    r[KEY_LOW] = (q % HALF) as u32;
    r[KEY_HIGH] = (q / HALF) as u32;
}
