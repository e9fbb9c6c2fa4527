//! Each call once: what a caller finds in its buffer.

use crate::exports::{
    multiscalar_c_annotate, multiscalar_c_check, multiscalar_c_curve, multiscalar_c_demonstrate,
    multiscalar_c_explain, multiscalar_c_print, multiscalar_c_replay,
    multiscalar_c_replay_strictly, multiscalar_c_run_steps, multiscalar_c_seq,
};

// Two rounds are left out of the register that the mask lacks: rule 5 refuses it.
const WRONG: &[u8] = b".task A create=- targets=-\nA: addiu $8,$0,5\nout $8\nhalt\n";

const RIGHT: &[u8] = b".task A create=$8 targets=-\nA: addiu $8,$0,5\nout $8\nhalt\n";

const CERTIFICATE: &[u8] =
    b"cert 2\ntask A\n0 0000000000000100\n1 0000000000000000\n2 0000000000000000\n";

#[test]
fn runs_sequentially(rt: HostRuntime) {
    let (mut out, mut len) = ([0u8; 64], 0);
    let status = multiscalar_c_seq(rt.alloc(), 100, RIGHT, &mut out, &mut len);
    assert!(rt; status == 0 && len == 30);
    assert!(rt;
        out.as_slice()
            .starts_with(b"5\nhalted after 3 instructions\n".as_slice())
    );
}

#[test]
fn tells_what_is_out_of_range_or_too_short(rt: HostRuntime) {
    let (mut out, mut len) = ([7u8; 4], 1);
    let status = multiscalar_c_seq(rt.alloc(), 0, RIGHT, &mut out, &mut len);
    assert!(rt; status == 258 && len == 0);
    let status = multiscalar_c_seq(rt.alloc(), 100, RIGHT, &mut out, &mut len);
    assert!(rt; status == 256 && len == 30);
    assert!(rt; out == [7u8; 4]);
}

#[test]
fn judges_marks(rt: HostRuntime) {
    let (mut out, mut len) = ([0u8; 64], 0);
    let status = multiscalar_c_check(rt.alloc(), true, WRONG, b"", &mut out, &mut len);
    assert!(rt; status == 1);
    assert!(rt;
        out.as_slice()
            .starts_with(b"A 0 rule 5 $8\nrefused 1\n".as_slice())
    );
    let status = multiscalar_c_check(rt.alloc(), false, RIGHT, CERTIFICATE, &mut out, &mut len);
    assert!(rt; status == 0);
    assert!(rt;
        out.as_slice()
            .starts_with(b"accepted 1 tasks 3 instructions\n".as_slice())
    );
}

#[test]
fn writes_texts(rt: HostRuntime) {
    let (mut out, mut len) = ([0u8; 1024], 0);
    let status = multiscalar_c_print(rt.alloc(), RIGHT, &mut out, &mut len);
    assert!(rt; status == 0);
    let status = multiscalar_c_annotate(rt.alloc(), 1, WRONG, &mut out, &mut len);
    assert!(rt; status == 0);
    assert!(rt; out.as_slice().starts_with(b"cert 2".as_slice()));
    let status = multiscalar_c_explain(
        rt.alloc(),
        0,
        false,
        false,
        b"wrong.s",
        WRONG,
        b"",
        b"",
        &mut out,
        &mut len,
    );
    assert!(rt; status == 1);
    assert!(rt; out.as_slice().starts_with(b"wrong.s:1:".as_slice()));
}

#[test]
fn runs_machines(rt: HostRuntime) {
    let (mut out, mut len) = ([0u8; 1024], 0);
    let status = multiscalar_c_run_steps(
        rt.alloc(),
        true,
        2,
        100,
        0,
        &[],
        0,
        RIGHT,
        b"",
        &mut out,
        &mut len,
    );
    assert!(rt; status == 0);
    assert!(rt; out.as_slice().starts_with(b"5\n".as_slice()));
    let status = multiscalar_c_curve(
        rt.alloc(),
        true,
        2,
        100,
        1,
        &[],
        0,
        RIGHT,
        b"",
        &mut out,
        &mut len,
    );
    assert!(rt; status == 0);
    let status = multiscalar_c_replay(
        rt.alloc(),
        true,
        2,
        0,
        RIGHT,
        b"",
        b"assign A\n",
        &mut out,
        &mut len,
    );
    assert!(rt; status < 4);
    let status = multiscalar_c_replay_strictly(
        rt.alloc(),
        true,
        2,
        RIGHT,
        b"",
        b"assign A\nexec 0 : $8=5\n",
        &mut out,
        &mut len,
    );
    assert!(rt; status == 0);
    assert!(rt;
        out.as_slice()
            .starts_with(b"as expected: 2 events; ".as_slice())
    );
}

#[test]
fn shows_nothing_of_right_marks(rt: HostRuntime) {
    let (mut out, mut len) = ([0u8; 64], 0);
    let status = multiscalar_c_demonstrate(rt.alloc(), 2, 100, RIGHT, &mut out, &mut len);
    assert!(rt; status == 0 && len == 49);
    assert!(rt;
        out.as_slice()
            .starts_with(b"the marks are right: no run shows anything\n".as_slice())
    );
}
