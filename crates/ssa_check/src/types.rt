// The classes of arguments and results.

ghost use Rattle.std.specs.Prelude.{◌≡◌, MatchOption, not};
ghost use Rattle.std.specs.List.{list_all};
ghost use Rattle.ssa_ir.specs.declared.func.SsaUnit.{SsaUnit as IrUnit};
ghost use Rattle.ssa_ir.specs.Lookups.{value_of};
ghost use Rattle.ssa_check.specs.declared.refusal.Check.TheVariants as check;
ghost use Rattle.ssa_ir.specs.Classes as classes;
ghost use Rattle.ssa_check.specs.Failing.{Meets, LeastPlace};
ghost use Rattle.ssa_check.specs.OpTypes as spec;
ghost use Rattle.ssa_check.specs.ValueChecks.{types_hold};

use crate::lowest::{ValueTest, lowest_value, value_place};
use crate::refusal::At;
use gossa_base::ValueId;
use ssa_ir::{
    Block, Class, Op, Scalar, Value, Width, class_of, class_of_scalar, is_scalar, same_class,
};
use ssa_tables::FuncTables;
use std::marker::Model;

/// The class of a value of the function, and of none Neither.
pub(crate) fn class_at(tables: &FuncTables, id: ValueId) -> Class
    ensures { result ≡ spec.class_at tables.now id }
{
    match tables.value(id) {
        Some(value) => class_of(&value.ty),
        None => Class::Neither,
    }
}

/// Whether values have these classes, one each.
pub(crate) fn are(tables: &FuncTables, args: &[ValueId], asked: &[Class]) -> bool
    ensures { result ≡ spec.are (spec.classes_of tables.now args.now) asked.now }
{
    if args.len() != asked.len() {
        return false;
    }
    for (i, class) in asked.iter().enumerate() {
        if !same_class(class_at(tables, args[i]), *class) {
            return false;
        }
    }
    true
}

// Whether values are all of one class.
fn all_are(tables: &FuncTables, args: &[ValueId], class: Class) -> bool
    ensures { result ≡ list_all (classes.same_class class) (spec.classes_of tables.now args.now) }
{
    for id in args {
        if !same_class(class, class_at(tables, *id)) {
            return false;
        }
    }
    true
}

// Whether values are all integers, bools or pointers.
fn all_scalars(tables: &FuncTables, args: &[ValueId]) -> bool
    ensures { result ≡ list_all classes.is_scalar (spec.classes_of tables.now args.now) }
{
    for id in args {
        if !is_scalar(class_at(tables, *id)) {
            return false;
        }
    }
    true
}

// Whether an op makes the base of symbols.
fn makes_base(op: Op) -> bool
    ensures { result ≡ spec.makes_base op }
{
    matches!(op, Op::SB)
}

// Whether a value is the base of symbols.
fn is_base(tables: &FuncTables, id: ValueId) -> bool
    ensures { result ≡ spec.is_base (value_of tables.now id) }
{
    match tables.value(id) {
        Some(value) => makes_base(value.op),
        None => false,
    }
}

// Whether values are all the base of symbols.
fn all_bases(tables: &FuncTables, args: &[ValueId]) -> bool
    ensures { result ≡ list_all (λ id. spec.is_base (value_of tables.now id)) args.now }
{
    for id in args {
        if !is_base(tables, *id) {
            return false;
        }
    }
    true
}

/// The arguments before the last.
pub(crate) fn before_last(args: &[ValueId]) -> &[ValueId]
    ensures { result.now ≡ spec.before_last args.now }
{
    &args[..args.len().saturating_sub(1)]
}

/// Whether the last of values is a memory.
pub(crate) fn last_is_memory(tables: &FuncTables, args: &[ValueId]) -> bool
    ensures { result ≡ spec.last_is_memory tables.now args.now }
{
    match args.last() {
        Some(id) => same_class(class_at(tables, *id), Class::Memory),
        None => false,
    }
}

// The class of the type in braces.
fn class_of_elem(elem: Option<Scalar>) -> Class
    ensures { result ≡ spec.class_of_elem elem }
{
    match elem {
        Some(scalar) => class_of_scalar(scalar),
        None => Class::Neither,
    }
}

// Whether a value of a function lacks the classes that its op asks.
#[derive(Drop)]
struct TypesTest<'a> {
    tables: &'a FuncTables<'a>,
}

impl<'a> Model for TypesTest<'a> {
    ghost use Rattle.ssa_ir.specs.declared.func.Func.{Func as IrFunc};

    ghost Value = { IrFunc };

    ghost view = { λ t. t.tables.now };
}

impl TypesTest<'_> {
    // Arguments of these classes, and this result.
    fn exactly(&self, value: &Value, asked: &[Class], result_class: Class) -> bool
        ensures { result ≡ spec.has_classes self.now value.now (spec.Exactly asked.now result_class) }
    {
        are(self.tables, value.args.as_slice(), asked)
            && same_class(class_of(&value.ty), result_class)
    }

    // Two arguments of one class, and this result.
    fn two_of(&self, value: &Value, asked: Class, result_class: Class) -> bool
        ensures { result ≡ spec.has_classes self.now value.now (spec.two_of asked result_class) }
    {
        self.exactly(value, &[asked, asked], result_class)
    }

    // Arguments of these classes, and an integer, a bool or a pointer.
    fn any_scalar(&self, value: &Value, asked: &[Class]) -> bool
        ensures { result ≡ spec.has_classes self.now value.now (spec.AnyScalar asked.now) }
    {
        are(self.tables, value.args.as_slice(), asked) && is_scalar(class_of(&value.ty))
    }

    // A pointer, a value of the type in braces and a memory; a memory.
    fn as_stored(&self, value: &Value) -> bool
        ensures { result ≡ spec.has_classes self.now value.now spec.AsStored }
    {
        self.exactly(
            value,
            &[Class::Pointer, class_of_elem(value.elem), Class::Memory],
            Class::Memory,
        )
    }

    // Arguments of the result's class, which is no memory and no tuple.
    fn all_one_scalar(&self, value: &Value) -> bool
        ensures { result ≡ spec.has_classes self.now value.now spec.AllOneScalar }
    {
        let class = class_of(&value.ty);
        is_scalar(class) && all_are(self.tables, value.args.as_slice(), class)
    }

    // Arguments of the result's class, which may be a memory too.
    fn all_one_class(&self, value: &Value) -> bool
        ensures { result ≡ spec.has_classes self.now value.now spec.AllOneClass }
    {
        let class = class_of(&value.ty);
        (is_scalar(class) || same_class(class, Class::Memory))
            && all_are(self.tables, value.args.as_slice(), class)
    }

    // Two arguments of the result's class, no memory and no tuple, and a bool.
    fn two_and_bool(&self, value: &Value) -> bool
        ensures { result ≡ spec.has_classes self.now value.now spec.TwoAndBool }
    {
        let class = class_of(&value.ty);
        is_scalar(class)
            && are(
                self.tables,
                value.args.as_slice(),
                &[class, class, Class::Bool],
            )
    }

    // The base of symbols; a pointer.
    fn of_base(&self, value: &Value) -> bool
        ensures { result ≡ spec.has_classes self.now value.now spec.OfBase }
    {
        all_bases(self.tables, value.args.as_slice())
            && same_class(class_of(&value.ty), Class::Pointer)
    }

    // A memory last; a tuple.
    fn calls(&self, value: &Value) -> bool
        ensures { result ≡ spec.has_classes self.now value.now spec.Calls }
    {
        last_is_memory(self.tables, value.args.as_slice())
            && same_class(class_of(&value.ty), Class::Tuple)
    }

    // No tuple.
    fn selects(&self, value: &Value) -> bool
        ensures { result ≡ spec.has_classes self.now value.now spec.Selects }
    {
        let class = class_of(&value.ty);
        is_scalar(class) || same_class(class, Class::Memory)
    }

    // Integers, bools and pointers, and a memory last; a tuple.
    fn returns(&self, value: &Value) -> bool
        ensures { result ≡ spec.has_classes self.now value.now spec.Returns }
    {
        let args = value.args.as_slice();
        last_is_memory(self.tables, args)
            && all_scalars(self.tables, before_last(args))
            && same_class(class_of(&value.ty), Class::Tuple)
    }

    // Whether arguments and result have the classes that the op asks.
    fn holds(&self, value: &Value) -> bool
        ensures { result ≡ types_hold self.now value.now }
    {
        match value.op {
            Op::Add(width)
            | Op::Sub(width)
            | Op::Mul(width)
            | Op::And(width)
            | Op::Or(width)
            | Op::Xor(width)
            | Op::Div(width)
            | Op::DivU(width)
            | Op::Mod(width)
            | Op::ModU(width) => self.two_of(value, Class::Int(width), Class::Int(width)),
            Op::Neg(width) | Op::Com(width) => self.exactly(
                value,
                &[Class::Int(width)],
                Class::Int(width),
            ),
            Op::Lsh(width) | Op::Rsh(width) | Op::RshU(width) => {
                self.exactly(
                    value,
                    &[Class::Int(width), Class::Int(Width::W64)],
                    Class::Int(width),
                )
            }
            Op::Eq(width)
            | Op::Neq(width)
            | Op::Less(width)
            | Op::Leq(width)
            | Op::LessU(width)
            | Op::LeqU(width) => { self.two_of(value, Class::Int(width), Class::Bool) }
            Op::EqB | Op::NeqB | Op::AndB | Op::OrB => self.two_of(value, Class::Bool, Class::Bool),
            Op::Not => self.exactly(value, &[Class::Bool], Class::Bool),
            Op::EqPtr | Op::NeqPtr => self.two_of(value, Class::Pointer, Class::Bool),
            Op::IsNonNil => self.exactly(value, &[Class::Pointer], Class::Bool),
            Op::IsInBounds | Op::IsSliceInBounds => {
                self.two_of(value, Class::Int(Width::W64), Class::Bool)
            }
            Op::SignExt(pair) | Op::ZeroExt(pair) => self.exactly(
                value,
                &[Class::Int(pair.narrow())],
                Class::Int(pair.wide()),
            ),
            Op::Trunc(pair) => self.exactly(
                value,
                &[Class::Int(pair.wide())],
                Class::Int(pair.narrow()),
            ),
            Op::AddPtr => {
                self.exactly(
                    value,
                    &[Class::Pointer, Class::Int(Width::W64)],
                    Class::Pointer,
                )
            }
            Op::OffPtr => self.exactly(value, &[Class::Pointer], Class::Pointer),
            Op::Load => self.any_scalar(value, &[Class::Pointer, Class::Memory]),
            Op::Store => self.as_stored(value),
            Op::NilCheck => {
                self.exactly(value, &[Class::Pointer, Class::Memory], Class::Pointer)
            }
            Op::CondSelect => self.two_and_bool(value),
            Op::Const(width) => self.exactly(value, &[], Class::Int(width)),
            Op::ConstBool => self.exactly(value, &[], Class::Bool),
            Op::ConstNil => self.exactly(value, &[], Class::Pointer),
            Op::SB => self.exactly(value, &[], Class::Int(Width::W64)),
            Op::Addr => self.of_base(value),
            Op::Phi => self.all_one_class(value),
            Op::Copy => self.all_one_scalar(value),
            Op::Arg => self.any_scalar(value, &[]),
            Op::InitMem => self.exactly(value, &[], Class::Memory),
            Op::StaticLECall => self.calls(value),
            Op::SelectN => self.selects(value),
            Op::MakeResult => self.returns(value),
            Op::Arm64MOVDconst
            | Op::Arm64MOVDaddr
            | Op::Arm64ADD
            | Op::Arm64SUB
            | Op::Arm64AND
            | Op::Arm64OR
            | Op::Arm64XOR
            | Op::Arm64MUL
            | Op::Arm64MULW
            | Op::Arm64ADDconst => false,
            Op::Arm64SUBconst
            | Op::Arm64ANDconst
            | Op::Arm64ORconst
            | Op::Arm64XORconst
            | Op::Arm64NEG
            | Op::Arm64MVN
            | Op::Arm64DIV
            | Op::Arm64UDIV
            | Op::Arm64DIVW
            | Op::Arm64UDIVW => false,
            Op::Arm64MOD
            | Op::Arm64UMOD
            | Op::Arm64MODW
            | Op::Arm64UMODW
            | Op::Arm64SLL
            | Op::Arm64SRL
            | Op::Arm64SRA
            | Op::Arm64SLLconst
            | Op::Arm64SRLconst
            | Op::Arm64SRAconst => false,
            Op::Arm64MOVBreg
            | Op::Arm64MOVHreg
            | Op::Arm64MOVWreg
            | Op::Arm64MOVBUreg
            | Op::Arm64MOVHUreg
            | Op::Arm64MOVWUreg
            | Op::Arm64CMP
            | Op::Arm64CMPW
            | Op::Arm64CMPconst
            | Op::Arm64CMPWconst => false,
            Op::Arm64TSTWconst
            | Op::Arm64Equal
            | Op::Arm64NotEqual
            | Op::Arm64LessThan
            | Op::Arm64LessEqual
            | Op::Arm64GreaterThan
            | Op::Arm64GreaterEqual
            | Op::Arm64LessThanU
            | Op::Arm64LessEqualU
            | Op::Arm64GreaterThanU => false,
            Op::Arm64GreaterEqualU
            | Op::Arm64CSEL
            | Op::Arm64MOVBload
            | Op::Arm64MOVHload
            | Op::Arm64MOVWload
            | Op::Arm64MOVBUload
            | Op::Arm64MOVHUload
            | Op::Arm64MOVWUload
            | Op::Arm64MOVDload
            | Op::Arm64MOVBstore => false,
            Op::Arm64MOVHstore
            | Op::Arm64MOVWstore
            | Op::Arm64MOVDstore
            | Op::Arm64LoweredNilCheck
            | Op::Arm64CALLstatic => false,
        }
    }
}

impl ValueTest for TypesTest<'_> {
    ghost takes = { λ t b v. Unit {0} };

    ghost fails = { λ t b v. not (types_hold t v) };

    fn fails_at(&self, _block: &Block, value: &Value) -> bool {
        !self.holds(value)
    }
}

// The least value at which the check Types fails.
pub(crate) fn types_fault(tables: &FuncTables) -> Option<At>
    ensures { (u : IrUnit) → MatchOption result (Meets check.Types u tables.now) (LeastPlace check.Types u tables.now) }
{
    value_place(lowest_value(tables.func(), &TypesTest { tables }))
}
