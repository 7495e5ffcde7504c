// Big-endian numbers in lent bytes, and the bits of a number. Every read is total: past the end stand zeros.
#![tactic(auto)]

ghost use Rattle.std.specs.Prelude.{◌≡◌, ℕ, ◌+◌, ◌<◌, slice_index, length};
ghost use Rattle.lent_bytes.specs.Bits.{bit};
ghost use Rattle.lent_bytes.specs.Reads.{be, Window};

pub fn byte_at(bytes: &[u8], at: usize) -> u8
    ensures { result ≡ slice_index bytes.now at }
{
    bytes.get(at).copied().unwrap_or(0)
}

// The bytes from `at` on, as many as are asked for. Where so many stand there they are taken at once, for speed.
pub fn bytes_at<const N: usize>(bytes: &[u8], at: usize) -> [u8; N]
    ensures { Window bytes.now at N result }
{
    let here = &bytes[at.min(bytes.len())..];
    if let Some(window) = here.first_chunk() {
        return *window;
    }
    let mut window = [0; N];
    window[..here.len()].copy_from_slice(here);
    window
}

// A reader for each width, since `from_be_bytes` is each type's own.
pub fn u16_at(bytes: &[u8], at: usize) -> u16
    ensures { result ≡ be bytes.now at 2 }
{
    u16::from_be_bytes(bytes_at(bytes, at))
}

pub fn u32_at(bytes: &[u8], at: usize) -> u32
    ensures { result ≡ be bytes.now at 4 }
{
    u32::from_be_bytes(bytes_at(bytes, at))
}

pub fn u64_at(bytes: &[u8], at: usize) -> u64
    ensures { result ≡ be bytes.now at 8 }
{
    u64::from_be_bytes(bytes_at(bytes, at))
}

// Whether bit `place` of the word, of value 2 ^ place, is set.
pub fn bit_at(word: u64, place: usize) -> bool
    ensures { result ≡ bit word place }
{
    place < 64 && (word >> place) % 2 == 1
}
