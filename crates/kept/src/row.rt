use record::LENGTH;

/// The bytes of a record. A host lends any bytes: what they say is told of all of them.
#[repr(C)]
#[derive(Clone, Copy, Debug, PartialEq, Eq)]
pub struct Kept {
    pub bytes: [u8; LENGTH],
}
