// One step: the operation that stands at the entry b, by its number, 100 × section + item of [M section 8].
// One flat match, and each operation called from here alone: so the compiler makes one jump table and folds every operation into the loop. Of the
// reals only loads, stores and the tests of the flag are; the others go by a function of their own, which is called from three arms and so stays one.
#![tactic(auto)]

ghost use Rattle.std.specs.Prelude.{◌≡◌, length};
ghost use Rattle.exec_core.specs.Seen.{seen, open_links, step_seen, Running};

use exec_bits::{anb, btc, btw, cmb, csc, ctb, ctw, lsh, lsx, orb, rsh, rsx, wtb, wtc, xob, zgb};
use exec_blocks::{cmc, mvc, mvw, trc};
use exec_branches::{
    bct, beq, bge, bgt, bhi, ble, blo, blt, bne, bnz, bze, ceq, cne, ieq, ige, igt, ile, ilt, ine,
    ino, iov, nzb, zrb,
};
use exec_calls::{exi, jsr, sss};
use exec_chars::{lch, plc, psc, sch};
use exec_control::{bri, brn, bsw, chk, ent, erb, jmg, lei, rtn};
use exec_core::Answer;
use exec_integers::{adi, cvd, cvm, dvi, ldi, mfi, mli, mti, ngi, rmi, sbi, sti};
use exec_moves::{add, aov, dca, dcv, ica, icv, lct, mnz, mov, ssl, sub, zer};
use exec_reals::{ldr, rno, rov, str};
use ops::constants::Machine;
use real_steps::real_step;

pub mod real_steps;

// The answer is 64 + the offset of the next entry, 20 at the JSR of an EXP, or the number of a trap, which leaves all as it was.
// No lent array says that it keeps its length, so the contract says it of the links.
pub fn dispatch(
    t: &[u32],
    b: usize,
    m: &mut [u32],
    z: &mut [u32; 16],
    links: &mut [u32; 257],
    c: usize,
) -> usize
    requires { Running t.now b z.old m.old links.old c }
    ensures { (seen result z.new m.new (open_links links.new) ≡ step_seen t.now b z.old m.old (open_links links.old)) × (length links.new ≡ length links.old) }
{
    match t[b] {
        101 => mov(t, b, m, z, c),
        102 => brn(t, b),
        103 => bsw(t, b, z),
        106 => ent(t, b),
        107 => bri(t, b, m, z),
        108 => lei(t, b, z),
        109 => jsr(t, b, links),
        112 => exi(t, b, z, links),
        115 => erb(t, b, z),
        116 => icv(t, b, m, z, c),
        117 => dcv(t, b, m, z, c),
        118 => zer(t, b, m, z, c),
        119 => mnz(t, b, m, z, c),
        120 => ssl(t, b, m, z, c, links[Machine::MAX_LINKS]),
        121 => sss(t, b, m, z, links),
        122 => rtn(t, b),
        123 => jmg(t, b),
        201 => add(t, b, m, z, c),
        202 => sub(t, b, m, z, c),
        203 => ica(t, b, m, z, c),
        204 => dca(t, b, m, z, c),
        205 => beq(t, b, m, z),
        206 => bne(t, b, m, z),
        207 => bgt(t, b, m, z),
        208 => bge(t, b, m, z),
        209 => blt(t, b, m, z),
        210 => ble(t, b, m, z),
        211 => blo(t, b, m, z),
        212 => bhi(t, b, m, z),
        213 => bnz(t, b, m, z),
        214 => bze(t, b, m, z),
        215 => lct(t, b, m, z, c),
        216 => bct(t, b, z),
        217 => aov(t, b, m, z, c),
        401 => ldi(t, b, m, z),
        402 => adi(t, b, m, z),
        403 => mli(t, b, m, z),
        404 => sbi(t, b, m, z),
        405 => dvi(t, b, m, z),
        406 => rmi(t, b, m, z),
        407 => sti(t, b, m, z, c),
        408 => ngi(t, b, z),
        409 => ino(t, b, z),
        410 => iov(t, b, z),
        411 => ieq(t, b, z),
        412 => ige(t, b, z),
        413 => igt(t, b, z),
        414 => ile(t, b, z),
        415 => ilt(t, b, z),
        416 => ine(t, b, z),
        501 => ldr(t, b, m, z),
        502 => str(t, b, m, z, c),
        503..=506 => real_step(t, b, m, z, links, c),
        507 => rov(t, b, z),
        508 => rno(t, b, z),
        509..=515 => real_step(t, b, m, z, links, c),
        601 => plc(t, b, m, z),
        602 => psc(t, b, m, z),
        603 => lch(t, b, m, z),
        604 => sch(t, b, m, z, c),
        605 => csc(b),
        606 => ceq(t, b, m, z),
        607 => cne(t, b, m, z),
        608 => cmc(t, b, m, z),
        609 => trc(t, b, m, z, c),
        701 => anb(t, b, m, z),
        702 => orb(t, b, m, z),
        703 => xob(t, b, m, z),
        704 => cmb(t, b, z),
        705 => rsh(t, b, z),
        706 => lsh(t, b, z),
        707 => rsx(t, b, z),
        708 => lsx(t, b, z),
        709 => nzb(t, b, m, z),
        710 => zrb(t, b, m, z),
        711 => zgb(b),
        801 => wtb(t, b, z),
        802 => btw(t, b, z),
        803 => mti(t, b, m, z),
        804 => mfi(t, b, m, z, c),
        805..=806 => real_step(t, b, m, z, links, c),
        807 => ctw(t, b, z),
        808 => ctb(t, b, z),
        809 => btc(b),
        810 => wtc(t, b, z),
        811 => cvm(t, b, z),
        812 => cvd(t, b, z),
        901 => mvc(t, b, m, z, c),
        903 => mvw(t, b, m, z, c),
        1001 => chk(t, b, m, z),
        _ => Answer::LOST,
    }
}
