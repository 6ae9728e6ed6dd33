// A record whose counts and length have been tested (R6 to R11).
ghost use Rattle.record_layout.specs.Sized.{Sized};

// The record's bytes, with its two counts beside them: who has one may read every entry.
#[derive(Clone, Copy)]
pub struct Counted<'a> {
    pub bytes: &'a [u8],
    pub banks: usize,
    pub images: usize,
    ghost sized: { Sized bytes.now banks images },
}
