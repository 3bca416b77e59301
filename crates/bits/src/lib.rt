// Bits of codes and of state-set words. 01: "Codes fill bytes from the highest bit." Each function's contract sets what it returns, or leaves
// in the buffer, equal to a definition of crate binary, specs/Bits.antt. An index that a caller must keep inside is a `requires`; the two tests that
// services call on whatever they are handed, `handed_good` and `open_nodes`, have none.
// A write clears the rest of its last byte, so that a code written bit after bit has its unused bits 0 whatever the buffer held: nobody clears
// first, and two writes in a row are one (law `write-write`). Indices and counts have 32 bits, since a good code has at most 524,288 bits. There
// are no loops: each function touches at most two bytes.
#![tactic(auto)]

ghost use Rattle.std.specs.Prelude.{◌≡◌, [], ◌∷◌, ◌+◌, ◌*◌, ◌<◌, ◌≤◌, length, get_or};
ghost use Rattle.binary.specs.Bits.{bit, test_bit, bits_of, bit_at, number_at, cell_count, high_bits, write, handed_good, count_below};

pub mod ones; // ones.rt: the bits that are set in a word

use syntax::Pattern;

// The r highest bits of a byte, the others 0.
fn high_bits(x: u8, r: u32) -> u8
    requires { r ≤ 8 }
    ensures { result ≡ high_bits 8 r x }
{
    let s = 8 - r;
    ((u32::from(x) >> s) << s) as u8
}

// Bit i of a code.
pub fn bit_at(code: &[u8], i: u32) -> bool
    requires { i < 8 * length code.now }
    ensures { result ≡ bit_at 8 code.now i }
{
    let q = (i / 8) as usize;
    (code[q] >> (7 - i % 8)) % 2 == 1
}

// The eight bits from bit i on as a number: the letter of a range.
pub fn byte_at(code: &[u8], i: u32) -> u8
    requires { i + 8 ≤ 8 * length code.now }
    ensures { result ≡ number_at 8 code.now i 8 }
{
    let q = (i / 8) as usize;
    let r = i % 8;
    if r == 0 {
        return code[q];
    }
    let both = u32::from(code[q]) * 256 + u32::from(code[q + 1]);
    ((both >> (8 - r)) % 256) as u8
}

// Bit i set, and the bits after it in its byte 0: the next bit is written there, or they are unused.
pub fn set_bit(code: &mut [u8], i: u32, value: bool)
    requires { i < 8 * length code.old }
    ensures { code.new ≡ write 8 code.old i (value ∷ []) }
{
    let q = (i / 8) as usize;
    let r = i % 8;
    let kept = high_bits(code[q], r);
    code[q] = kept | (u8::from(value) << (7 - r));
}

// The eight bits from bit i on set to a number, and the bits after them in their byte 0.
pub fn set_byte(code: &mut [u8], i: u32, value: u8)
    requires { i + 8 ≤ 8 * length code.old }
    ensures { code.new ≡ write 8 code.old i (bits_of 8 value) }
{
    let q = (i / 8) as usize;
    let r = i % 8;
    if r == 0 {
        code[q] = value;
        return;
    }
    let before = high_bits(code[q], r);
    code[q] = before | (value >> r);
    code[q + 1] = value << (8 - r);
}

// How many bytes so many bits need.
pub fn bytes_for(count: u32) -> usize
    ensures { result ≡ cell_count 8 count }
{
    (count as usize).div_ceil(8)
}

// Whether bytes and a bit count can be a code at all: exactly enough bytes, at most 65,536, and the unused bits 0.
#[tactic(auto, using(binary::specs::Handed::handed_over))]
pub fn handed_good(code: &[u8], count: u32) -> bool
    ensures { result ≡ handed_good code.now count }
{
    if code.len() > Pattern::MAX_CODE_BYTES {
        return false;
    }
    let q = (count / 8) as usize;
    let r = count % 8;
    code.len() == bytes_for(count) && (r == 0 || high_bits(code[q], r) == code[q])
}

// How many nodes are open in a state set: the language's count of ones.
pub fn open_nodes(word: u64) -> u32
    ensures { result ≡ count_below 64 (test_bit word) }
{
    word.count_ones()
}

// Whether node l is open at position i with the flag: bit l of the flag's word of the position. A buffer of state sets holds two words a
// position, that of flag 0 first.
pub fn is_open(words: &[u64], i: usize, taken: bool, l: usize) -> bool
    requires { (2 * i + 1 < length words.now) × (l < 64) }
    ensures { result ≡ test_bit (get_or words.now (2 * i + bit taken) 0) l }
{
    (words[2 * i + usize::from(taken)] >> l) % 2 == 1
}
