// What a C program calls: each call of crate wumbyra, exported, with its contract. A static library exports its own functions alone, and no crate
// can stand on one, so the services and their laws are in crate wumbyra and the calls are here. include/wumbyra.h declares them.
// Kept: the calls stand twice, here and in crate wumbyra, since the C interface has to export functions of this crate.
#![tactic(auto)]

ghost use Rattle.std.specs.Prelude.{◌≡◌};
ghost use Rattle.loading.specs.Load.{load_answer};
ghost use Rattle.packing.specs.Packing.{unpacked};
ghost use Rattle.wumbyra.specs.Packed.{version_number, ParsesText, FlattensText, CanonicalizesText, LocatesText};
ghost use Rattle.wumbyra.specs.Packed.{span_text, total_text, TotalsText, TermTotalsText};
ghost use Rattle.wumbyra.specs.Packed.{DeskOpensText, DeskPutsText, DeskWithdrawsText};

#[unsafe(no_mangle)]
pub extern "C" fn wumbyra_version() -> u32
    ensures { result ≡ version_number }
{
    wumbyra::wumbyra_version()
}

#[unsafe(no_mangle)]
pub extern "C" fn wumbyra_load(text: &[u8]) -> u64
    ensures { unpacked result ≡ load_answer text.now }
{
    wumbyra::wumbyra_load(text)
}

#[unsafe(no_mangle)]
pub extern "C" fn wumbyra_parse(text: &[u8], tape: &[u8], words: &mut [u64], code: &mut [u8]) -> u64
    ensures { ParsesText text.now tape.now words.old words.new
        code.old code.new result }
{
    wumbyra::wumbyra_parse(text, tape, words, code)
}

#[unsafe(no_mangle)]
pub extern "C" fn wumbyra_flatten(text: &[u8], code: &[u8], count: u32, tape: &mut [u8]) -> u64
    ensures { FlattensText text.now code.now count tape.old tape.new result }
{
    wumbyra::wumbyra_flatten(text, code, count, tape)
}

#[unsafe(no_mangle)]
pub extern "C" fn wumbyra_canonicalize(
    text: &[u8],
    code: &[u8],
    count: u32,
    tape: &mut [u8],
    words: &mut [u64],
    canonical: &mut [u8],
) -> u64
    ensures { CanonicalizesText text.now code.now count tape.old tape.new
        words.old words.new canonical.old canonical.new result }
{
    wumbyra::wumbyra_canonicalize(text, code, count, tape, words, canonical)
}

#[unsafe(no_mangle)]
pub extern "C" fn wumbyra_span(
    text: &[u8],
    tape: &[u8],
    code: &[u8],
    count: u32,
    node: u32,
    visit: u32,
) -> u64
    ensures { unpacked result ≡ span_text text.now tape.now code.now count node visit }
{
    wumbyra::wumbyra_span(text, tape, code, count, node, visit)
}

#[unsafe(no_mangle)]
pub extern "C" fn wumbyra_locate(text: &[u8], tape: &[u8]) -> u64
    ensures { LocatesText text.now tape.now result }
{
    wumbyra::wumbyra_locate(text, tape)
}

#[unsafe(no_mangle)]
pub extern "C" fn wumbyra_total(text: &[u8], code: &[u8], count: u32, account: u32) -> u64
    ensures { unpacked result ≡ total_text text.now code.now count account }
{
    wumbyra::wumbyra_total(text, code, count, account)
}

#[unsafe(no_mangle)]
pub extern "C" fn wumbyra_totals(text: &[u8], code: &[u8], count: u32, litres: &mut [u32]) -> u64
    ensures { TotalsText text.now code.now count litres.old litres.new result }
{
    wumbyra::wumbyra_totals(text, code, count, litres)
}

#[unsafe(no_mangle)]
pub extern "C" fn wumbyra_term_totals(
    text: &[u8],
    code: &[u8],
    count: u32,
    start: u32,
    first: u32,
    last: u32,
    litres: &mut [u32],
) -> u64
    ensures { TermTotalsText text.now code.now count start first last
        litres.old litres.new result }
{
    wumbyra::wumbyra_term_totals(text, code, count, start, first, last, litres)
}

#[unsafe(no_mangle)]
pub extern "C" fn wumbyra_desk_open(text: &[u8], desk: &mut [u8], words: &mut [u64]) -> u64
    ensures { DeskOpensText text.now desk.old desk.new words.old words.new result }
{
    wumbyra::wumbyra_desk_open(text, desk, words)
}

#[unsafe(no_mangle)]
pub extern "C" fn wumbyra_desk_put(
    text: &[u8],
    desk: &mut [u8],
    page: &[u8],
    letters: &mut [u8],
    words: &mut [u64],
) -> u64
    ensures { DeskPutsText text.now desk.old desk.new page.now
        letters.old letters.new words.old words.new result }
{
    wumbyra::wumbyra_desk_put(text, desk, page, letters, words)
}

#[unsafe(no_mangle)]
pub extern "C" fn wumbyra_desk_withdraw(text: &[u8], desk: &mut [u8], letters: &[u8]) -> u64
    ensures { DeskWithdrawsText text.now desk.old desk.new letters.now result }
{
    wumbyra::wumbyra_desk_withdraw(text, desk, letters)
}
