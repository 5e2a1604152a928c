ghost use Rattle.std.specs.Prelude.{◌^◌, ◌<◌, length};

// Lays bytes over a buffer, one after the other, from its place on. What would stand past the buffer's end
// is only counted, so that an empty buffer tells the length.
#[derive(Drop)]
pub(crate) struct Writer<'b> {
    pub(crate) buffer: &'b mut [u8],
    pub(crate) place: usize,
    ghost counted: { place < 2 ^ 64 },
    ghost short: { length buffer.now < 2 ^ 64 },
}
