//! The numbers that stand in a segment, each as its little-endian bytes.

ghost use Rattle.std.specs.Prelude.{◌≡◌, ℕ, ◌<◌, List, length};
ghost use Rattle.std.specs.Int.{w8, w16, w32, w64, to_le_bytes, from_le_bytes};

/// A number that a segment can hold: `u8`, `u16`, `u32` and `u64`, each as its little-endian bytes.
pub trait Plain: Copy + Drop {
    // How many bytes it has, which bytes a number is, and which number they are.
    ghost width: { ℕ };

    ghost bytes_of: { Self → List ℕ };

    ghost value_of: { List ℕ → Self };

    /// How many bytes it has, at least one.
    fn width() -> u64
        ensures value { result ≡ width }
        ensures some { 0 < result };

    /// The number that these bytes are.
    fn read(bytes: &[u8]) -> Self
        requires { length bytes.now ≡ width }
        ensures { result ≡ value_of bytes.now };

    /// Writes the number's bytes.
    fn write(self, bytes: &mut [u8])
        requires { length bytes.old ≡ width }
        ensures { bytes.new ≡ bytes_of self };
}

impl Plain for u8 {
    ghost width = { 1 };

    ghost bytes_of = { to_le_bytes w8 };

    ghost value_of = { from_le_bytes w8 };

    fn width() -> u64 {
        1
    }

    fn read(bytes: &[u8]) -> u8 {
        u8::from_le_bytes([bytes[0]])
    }

    fn write(self, bytes: &mut [u8]) {
        bytes.copy_from_slice(&self.to_le_bytes());
    }
}

impl Plain for u16 {
    ghost width = { 2 };

    ghost bytes_of = { to_le_bytes w16 };

    ghost value_of = { from_le_bytes w16 };

    fn width() -> u64 {
        2
    }

    fn read(bytes: &[u8]) -> u16 {
        u16::from_le_bytes([bytes[0], bytes[1]])
    }

    fn write(self, bytes: &mut [u8]) {
        bytes.copy_from_slice(&self.to_le_bytes());
    }
}

impl Plain for u32 {
    ghost width = { 4 };

    ghost bytes_of = { to_le_bytes w32 };

    ghost value_of = { from_le_bytes w32 };

    fn width() -> u64 {
        4
    }

    fn read(bytes: &[u8]) -> u32 {
        u32::from_le_bytes([bytes[0], bytes[1], bytes[2], bytes[3]])
    }

    fn write(self, bytes: &mut [u8]) {
        bytes.copy_from_slice(&self.to_le_bytes());
    }
}

impl Plain for u64 {
    ghost width = { 8 };

    ghost bytes_of = { to_le_bytes w64 };

    ghost value_of = { from_le_bytes w64 };

    fn width() -> u64 {
        8
    }

    fn read(bytes: &[u8]) -> u64 {
        u64::from_le_bytes([
            bytes[0], bytes[1], bytes[2], bytes[3], bytes[4], bytes[5], bytes[6], bytes[7],
        ])
    }

    fn write(self, bytes: &mut [u8]) {
        bytes.copy_from_slice(&self.to_le_bytes());
    }
}
