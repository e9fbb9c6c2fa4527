//! The worked example of the port: each call is also made on a plain form of it, two arrays of options.

use crate::given::register;
use mips_instructions::number::{Reg, RegSet};
use register_ring::port::{AlreadyThere, Port};
use std::process::Abort;

/// A port as two arrays.
#[derive(Drop)]
struct PlainPort {
    arrived: [Option<u32>; 34],
    sent: [Option<u32>; 34],
}

fn is_member(set: RegSet, index: usize) -> bool {
    match Reg::new((index % 34) as u8) {
        Some(register) => set.has(register),
        None => false,
    }
}

impl PlainPort {
    fn fresh(words: &[u32; 34], accum: RegSet) -> PlainPort {
        let mut arrived = [None; 34];
        for index in 0..34usize {
            if !is_member(accum, index) {
                arrived[index] = Some(words[index]);
            }
        }
        PlainPort {
            arrived,
            sent: [None; 34],
        }
    }

    fn arrive(&mut self, register: Reg, word: u32) -> Result<(), AlreadyThere> {
        let index = usize::from(register.get());
        if self.arrived[index].is_some() {
            return Err(AlreadyThere);
        }
        self.arrived[index] = Some(word);
        Ok(())
    }

    fn send(&mut self, register: Reg, word: u32) {
        let index = usize::from(register.get());
        if self.sent[index].is_none() {
            self.sent[index] = Some(word);
        }
    }

    fn pass(&self, create: RegSet, register: Reg) -> Option<u32> {
        let index = usize::from(register.get());
        if create.has(register) {
            self.sent[index]
        } else {
            self.arrived[index]
        }
    }

    fn fill(&mut self, words: &[u32; 34]) {
        for index in 0..34usize {
            if self.arrived[index].is_none() {
                self.arrived[index] = Some(words[index]);
            }
        }
    }
}

/// A word for each register.
const WORDS: [u32; 34] = [
    0, 1, 2, 3, 4, 5, 6, 7, 8, 9, 10, 11, 12, 13, 14, 15, 16, 17, 18, 19, 20, 21, 22, 23, 24, 25,
    26, 27, 28, 29, 30, 31, 32, 33,
];

/// Other words.
const FILLING: [u32; 34] = [99; 34];

/// The next of a fixed sequence of numbers.
fn next_draw(draw: u32) -> u32 {
    draw.wrapping_mul(1_664_525).wrapping_add(1_013_904_223)
}

fn mask(rt: &impl Abort, draw: u32) -> RegSet {
    let bits = u64::from(draw) << 2 | u64::from(draw) >> 30;
    RegSet::from_bits(bits).expect(rt, "a mask")
}

/// One call on both, chosen by a drawn number, with the same answer; returns its register.
fn call(rt: &impl Abort, port: &mut Port, plain: &mut PlainPort, create: RegSet, draw: u32) -> Reg {
    let register = register(rt, ((draw >> 16) % 34) as u8);
    match (draw >> 8) % 32 {
        0..=9 => {
            assert!(rt; port.arrive(register, draw) == plain.arrive(register, draw));
        }
        10..=19 => {
            port.send(register, draw);
            plain.send(register, draw);
        }
        20..=30 => {
            assert!(rt; port.pass(create, register) == plain.pass(create, register));
        }
        _ => {
            port.fill(&FILLING);
            plain.fill(&FILLING);
        }
    }
    register
}

/// Asserts that both hold the same for each register.
fn compare(rt: &impl Abort, port: &Port, plain: &PlainPort) {
    for index in 0..34usize {
        let register = register(rt, index as u8);
        assert!(rt; port.arrived(register) == plain.arrived[index]);
        assert!(rt; port.sent(register) == plain.sent[index]);
    }
}

/// Makes forty calls on a port and on its plain form, after which both hold the same; adds their registers, and returns
/// the last number drawn.
fn run_both(rt: &impl Abort, draw: u32, drawn: &mut RegSet) -> u32 {
    let mut draw = draw;
    let accum = mask(rt, draw);
    let create = mask(rt, next_draw(draw));
    let mut port = Port::fresh(&WORDS, accum);
    let mut plain = PlainPort::fresh(&WORDS, accum);
    for _ in 0..40 {
        draw = next_draw(draw);
        *drawn = drawn.insert(call(rt, &mut port, &mut plain, create, draw));
    }
    compare(rt, &port, &plain);
    draw
}

#[test]
fn port_two_representations(rt: HostRuntime) {
    let mut draw = 1995;
    let mut drawn = RegSet::empty();
    for _ in 0..1_000 {
        draw = run_both(&rt, next_draw(draw), &mut drawn);
    }
    for number in [0, 31, 33] {
        assert!(rt; drawn.has(register(&rt, number)), "register {number}");
    }
}
