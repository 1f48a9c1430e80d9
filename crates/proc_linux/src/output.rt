//! The output of a child.

ghost use Rattle.std.specs.Prelude.{◌≡◌, ◌≤◌, vec_len};
ghost use Rattle.base_io.specs.declared.spawner.TheConstants.{MAX_OUTPUT};

/// All that a child wrote, at most 67,108,864 bytes.
#[derive(Drop)]
pub struct Output {
    bytes: Vec<u8>,
    ghost within: { vec_len bytes ≤ MAX_OUTPUT },
}

impl Output {
    /// The output of these bytes.
    pub fn new(bytes: Vec<u8>) -> Output
        requires { vec_len bytes ≤ MAX_OUTPUT }
        ensures { result.bytes ≡ bytes }
    {
        Output { bytes }
    }

    /// The bytes.
    pub fn into_bytes(self) -> Vec<u8>
        ensures within { vec_len result ≤ MAX_OUTPUT }
        ensures same { result ≡ self.bytes }
    {
        let Output { bytes } = self;
        bytes
    }
}
