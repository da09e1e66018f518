// The trailer of any file, and what it says of the rest: whether it holds, and whether it is of this program [S The snapshot].
ghost use Rattle.std.specs.Prelude.{◌≡◌, ◌<◌, ◌≤◌, length, eqb, leb};
ghost use Rattle.base.specs.Test.{Ok};
ghost use Rattle.rules.specs.Check.{table_ok};
ghost use Rattle.base.specs.Test.{◌and◌};
ghost use Rattle.real_rules.specs.Real.{finite_high};
ghost use Rattle.rules.specs.Check.{among};
ghost use Rattle.ops.specs.Machine.{max_memory, min_memory};
ghost use Rattle.rules.specs.Snapshot.{file_length, form_in, fresh_from, fresh_in, length_in, links_from, links_in, memory_from, memory_in, real_word, same_program, trailer_bytes, trailer_ok, trailer_word};
ghost use Rattle.snap_core.specs.Forms.{form_view};

use super::copy::{read_word, same_words};
use super::layout::{Form, TRAILER, file_length, index, new_form, old_form, trailer_bytes};
use loading::{WORD, fresh_base, fresh_count};
use ops::constants::Machine;
use reals::reals_ok;

// The words of the trailer from the build number on, in their order in the file.
pub const BUILD: usize = 0;

pub const SIZE: usize = 1;

pub const MEMORY: usize = 2;

pub const LINKS: usize = 3;

pub const FRESH: usize = 4;

pub const PLACE: usize = 5;

pub const WAITING: usize = 6;

pub const XL: usize = 7;

pub const XR: usize = 8;

pub const XS: usize = 9;

pub const WA: usize = 10;

pub const WB: usize = 11;

pub const WC: usize = 12;

pub const IA: usize = 13;

pub const FLAG: usize = 14;

pub const LENGTH: usize = 15;

// Before it stand RA's two words and its flag, where the file's form has them.
pub const RA_LOW: usize = 0;

pub const RA_HIGH: usize = 1;

pub const REAL_FLAG: usize = 2;

// Word i from the build number on.
pub fn trailer_word(file: &[u8], i: usize) -> u32
    requires { (64 ≤ length file.now) × (i < 16) }
    ensures { result ≡ trailer_word file.now i }
{
    read_word(file, file.len() - TRAILER + WORD * i)
}

// The form of a file, by what L says.
pub fn form_in(file: &[u8]) -> Form
    requires { 64 ≤ length file.now }
    ensures { (form_view result ≡ form_in file.now) × (result.reals ≤ 3) }
{
    let m = trailer_word(file, MEMORY);
    let k = trailer_word(file, LINKS);
    let f = trailer_word(file, FRESH);
    let len = trailer_word(file, LENGTH);
    if len as u64 == file_length(old_form(), m, k, f) {
        return old_form();
    }
    new_form()
}

// Word i of RA and its flag: +0 and off in the old form.
pub fn real_word(file: &[u8], i: usize) -> u32
    requires { (64 ≤ length file.now) × (trailer_bytes (form_in file.now) ≤ length file.now) × (i < 3) }
    ensures { result ≡ real_word file.now i }
{
    let form = form_in(file);
    if form.reals == 0 {
        return 0;
    }
    read_word(file, file.len() - trailer_bytes(form) + WORD * i)
}

// L is true by the file's form, and inside the file.
pub fn length_ok(file: &[u8]) -> bool
    requires { 64 ≤ length file.now }
    ensures { result ≡ (eqb (length_in file.now) (file_length (form_in file.now) (memory_in file.now) (links_in file.now) (fresh_in file.now)) and leb (length_in file.now) (length file.now)) }
{
    let m = trailer_word(file, MEMORY);
    let k = trailer_word(file, LINKS);
    let f = trailer_word(file, FRESH);
    let len = trailer_word(file, LENGTH);
    if len as u64 != file_length(form_in(file), m, k, f) {
        return false;
    }
    index(len) <= file.len()
}

// m lies in its limits.
pub fn memory_ok(m: usize) -> bool
    ensures { result ≡ among min_memory max_memory m }
{
    if m < Machine::MIN_MEMORY {
        return false;
    }
    m <= Machine::MAX_MEMORY
}

// Waiting and both flags are 0 or 1, and RA is finite.
pub fn values_ok(file: &[u8]) -> bool
    requires { (64 ≤ length file.now) × (trailer_bytes (form_in file.now) ≤ length file.now) }
    ensures { result ≡ (leb (trailer_word file.now 6) 1 and leb (trailer_word file.now 14) 1 and finite_high (real_word file.now 1) and leb (real_word file.now 2) 1) }
{
    if 1 < trailer_word(file, WAITING) {
        return false;
    }
    if 1 < trailer_word(file, FLAG) {
        return false;
    }
    reals_ok(real_word(file, RA_HIGH), real_word(file, REAL_FLAG))
}

// 40: there is a trailer, L is true and inside the file, m lies in its limits, waiting and both flags are 0 or 1, and RA is finite.
pub fn trailer_ok(file: &[u8]) -> bool
    ensures { result ≡ trailer_ok file.now }
{
    if file.len() < TRAILER {
        return false;
    }
    if !length_ok(file) {
        return false;
    }
    if !memory_ok(index(trailer_word(file, MEMORY))) {
        return false;
    }
    values_ok(file)
}

// The byte at which the memory of a file begins, its links, and its fresh addresses.
pub fn memory_from(file: &[u8]) -> usize
    requires { Ok (trailer_ok file.now) }
    ensures { result ≡ memory_from file.now }
{
    file.len() - index(trailer_word(file, LENGTH))
}

pub fn links_from(file: &[u8]) -> usize
    requires { Ok (trailer_ok file.now) }
    ensures { result ≡ links_from file.now }
{
    memory_from(file) + WORD * index(trailer_word(file, MEMORY))
}

pub fn fresh_from(file: &[u8]) -> usize
    requires { Ok (trailer_ok file.now) }
    ensures { result ≡ fresh_from file.now }
{
    links_from(file) + WORD * index(trailer_word(file, LINKS))
}

// 41: the host's build, the table's n and its fresh list.
pub fn same_program(table: &[u32], build: u32, file: &[u8]) -> bool
    requires { Ok (table_ok table.now) × Ok (trailer_ok file.now) }
    ensures { result ≡ same_program table.now build file.now }
{
    if trailer_word(file, BUILD) != build {
        return false;
    }
    if trailer_word(file, SIZE) != table[0] {
        return false;
    }
    if trailer_word(file, FRESH) != table[3] {
        return false;
    }
    let from = fresh_base(table);
    let to = from + fresh_count(table);
    same_words(file, fresh_from(file), &table[from..to])
}
