// A chunk size that a request can need: a multiple of 16, from 32 to 262,160. Assumes nothing.
ghost use Rattle.std.specs.Prelude.{◌≡◌, ◌%◌, ◌≤◌};

#[derive(Clone, Copy)]
pub struct Size {
    pub bytes: u64,
    pub ghost whole: { bytes % 16 ≡ 0 },
    pub ghost least: { 32 ≤ bytes },
    pub ghost most: { bytes ≤ 262160 },
}
