// The table of ops: names, rows, and what each op is to a run. Every op's name and row stand in `op_lines.rt` as well.

use crate::made::prints;
use ssa_ir::{
    Access, Arity, AuxRule, Gives, Op, Role, Scalar, Takes, Ty, Width, WidthPair, facts_of, op_row,
    role_of,
};

const NAMES: [(Op, &str); 10] = [
    (Op::InitMem, "InitMem"),
    (Op::Const(Width::W8), "Const8"),
    (Op::DivU(Width::W32), "Div32u"),
    (Op::RshU(Width::W16), "Rsh16Ux64"),
    (Op::SignExt(WidthPair::W8W64), "SignExt8to64"),
    (Op::Trunc(WidthPair::W16W32), "Trunc32to16"),
    (Op::StaticLECall, "StaticLECall"),
    (Op::Arm64ADD, "ADD"),
    (Op::Arm64MOVBUload, "MOVBUload"),
    (Op::Arm64GreaterEqualU, "GreaterEqualU"),
];

#[test]
fn ops_have_names(rt: HostRuntime) {
    for (op, name) in NAMES.iter() {
        assert!(rt; prints(rt.alloc(), op, name) == Ok(true), "for {name}");
        assert!(rt; name_of(name) == Some(*name), "for {name}");
    }
}

#[test]
fn other_words_name_no_op(rt: HostRuntime) {
    for unknown in ["", "Add", "Add64 ", "Hmul64", "add64", "zzz"].iter() {
        assert!(rt; name_of(unknown) == None, "for {unknown}");
    }
}

// The name of the op that has a name; no two ops have the same.
fn name_of(name: &str) -> Option<&'static str> {
    let op = Op::named(name.as_bytes())?;
    Some(op.name())
}

#[test]
fn ops_have_rows(rt: HostRuntime) {
    let store = op_row(Op::Store);
    assert!(rt; store.arity == Arity::Exact(3) && store.aux == AuxRule::Elem);
    assert!(rt; store.makes_mem && !store.reads_mem);
    let phi = op_row(Op::Phi);
    assert!(rt; phi.arity == Arity::Any && phi.aux == AuxRule::Nothing);
    assert!(rt; op_row(Op::Arm64MOVDload).reads_mem);
    assert!(rt; op_row(Op::Mod(Width::W8)).aux == AuxRule::Dropped);
}

const ROLES: [(Op, Role, bool); 13] = [
    (Op::Add(Width::W8), Role::Computes, false),
    (Op::Arg, Role::TakesParameter, false),
    (Op::Addr, Role::TakesAddress, false),
    (Op::Load, Role::Loads, false),
    (Op::Store, Role::Stores, false),
    (Op::NilCheck, Role::ChecksNil, false),
    (Op::StaticLECall, Role::Calls, false),
    (Op::Phi, Role::Rests, false),
    (Op::Arm64ADD, Role::Computes, true),
    (Op::Arm64CMPconst, Role::Compares, true),
    (Op::Arm64MOVDaddr, Role::TakesAddress, true),
    (Op::Arm64MOVBload, Role::Loads, true),
    (Op::Arm64CALLstatic, Role::Calls, true),
];

#[test]
fn ops_have_roles(rt: HostRuntime) {
    for (op, role, machine) in ROLES.iter() {
        assert!(rt; role_of(*op) == *role && op.is_machine() == *machine);
    }
}

#[test]
fn ops_have_facts(rt: HostRuntime) {
    let select = facts_of(Op::Arm64CSEL);
    assert!(rt; select.takes == Takes::WordsAndFlags(2) && select.gives == Gives::Word);
    assert!(rt; select.takes.arity() == Arity::Exact(3));
    assert!(rt; select.takes.operands() == 2 && select.takes.has_flags());
    assert!(rt; facts_of(Op::Load).access == Access::OfType && facts_of(Op::Load).reads_memory());
    assert!(rt; facts_of(Op::Arm64MOVHload).access == Access::Signed(Width::W16));
    assert!(rt; facts_of(Op::Arm64MOVDstore).access == Access::Unsigned(Width::W64));
    assert!(rt; facts_of(Op::Arm64MOVDstore).takes.has_memory());
    assert!(rt; facts_of(Op::Store).gives.is_memory() && !facts_of(Op::Phi).gives.is_memory());
}

#[test]
fn widths_have_bits_and_bytes(rt: HostRuntime) {
    assert!(rt; Width::W32.bits() == 32 && Width::W32.bytes() == 4);
    assert!(rt; WidthPair::W8W64.narrow() == Width::W8 && WidthPair::W8W64.wide() == Width::W64);
    assert!(rt; Scalar::Bool.bits() == 8 && Scalar::Ptr.bytes() == 8);
    assert!(rt; Ty::One(Scalar::U16).bytes() == 2 && Ty::Mem.bytes() == 0);
}
