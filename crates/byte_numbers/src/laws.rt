//! Laws of numbers in bytes.
ghost use Rattle.std.specs.Prelude.{◌≡◌, ◌<◌, ◌≤◌, ◌*◌, ◌^◌, ℕ, List, length, take, slice_index};
ghost use Rattle.std.specs.List.{AllByRecursion, flat_map};
ghost use Rattle.byteorder.specs.Endian.{big_bytes, big_number};
ghost use Rattle.byte_numbers.specs.Spelling.{short_numbers};

/// What is written is read back, and what is read is written back.
pub fn spelling_law()
    ensures read_back { (n x : ℕ) → x < 256 ^ n → big_number n (big_bytes n x) ≡ x }
    ensures written_back { (n : ℕ) (bytes : List ℕ) → n ≤ length bytes → ((place : ℕ) → slice_index bytes place < 256)
        → big_bytes n (big_number n bytes) ≡ take n bytes }
{}

/// Numbers of two bytes each that are written are read back, and pairs of bytes that are read are written back.
pub fn pairs_law()
    ensures read_back { (numbers : List ℕ) → AllByRecursion (λ n. n < 2 ^ 16) numbers
        → short_numbers (flat_map (big_bytes 2) numbers) ≡ numbers }
    ensures written_back { (count : ℕ) (bytes : List ℕ) → length bytes ≡ 2 * count → ((place : ℕ) → slice_index bytes place < 256)
        → flat_map (big_bytes 2) (short_numbers bytes) ≡ bytes }
{}
