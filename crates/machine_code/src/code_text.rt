//! A listing of code, for people. Each `push` function puts a text after another one. Its only error is want of memory, after
//! which a front of the text may stand there.
ghost use Rattle.std.specs.Prelude.{◌≡◌, ◌++◌, map, take, drop, codes, OnOk};
ghost use Rattle.std.specs.List.{flat_map};
ghost use Rattle.heap_words.specs.Cells.{decoded};
ghost use Rattle.machine_code.specs.Compiling.{entrance_of};
ghost use Rattle.machine_code.specs.Listing.{one, two, title_text, built_in_text, called_text, constant_text, operator_text};
ghost use Rattle.machine_code.specs.Listing.{test_text, step_text, side_text, built_by_text, mark_text, instr_text, instr_line, instr_lines};
ghost use Rattle.machine_code.specs.Listing.{procedure_line, listing_text, opener_text, builder_text};

use crate::{Code, Instr, Procedure};
use fcp_model::spelling::{Decimal, push_bytes, push_decimal, push_string};
use fcp_model::{ASSIGN_PROCEDURE, ArithOp, Names, NoMemory, TRUE_PROCEDURE, UNIFY_PROCEDURE};
use heap_words::{Cell, ExprStep, TestKind, decode};

/// Puts the listing of a module's code after a text.
pub fn listing(text: &mut Vec<u8>, names: &Names, code: &Code) -> Result<(), NoMemory>
    ensures { OnOk result (text.new.items ≡ text.old.items ++ listing_text names.now code.now) }
{
    push_procedures(text, names, code.procedures())?;
    push_instrs(text, names, code, code.instrs())
}

/// The procedures' lines.
fn push_procedures(
    text: &mut Vec<u8>,
    names: &Names,
    procedures: &[Procedure],
) -> Result<(), NoMemory>
    ensures { OnOk result (text.new.items ≡ text.old.items ++ flat_map (procedure_line names.now) (map entrance_of procedures.now)) }
{
    for procedure in procedures {
        push_procedure(text, names, procedure)?;
    }
    Ok(())
}

/// The lines of instructions.
fn push_instrs(
    text: &mut Vec<u8>,
    names: &Names,
    code: &Code,
    instrs: &[Instr],
) -> Result<(), NoMemory>
    ensures { OnOk result (text.new.items ≡ text.old.items ++ instr_lines names.now code.now 0 instrs.now) }
{
    for (at, instr) in instrs.iter().enumerate() {
        push_line(text, names, code, at, instr)?;
    }
    Ok(())
}

/// A procedure's line.
fn push_procedure(text: &mut Vec<u8>, names: &Names, procedure: &Procedure) -> Result<(), NoMemory>
    ensures { OnOk result (text.new.items ≡ text.old.items ++ procedure_line names.now (entrance_of procedure.now)) }
{
    push_title(text, names, procedure)?;
    push_one(text, b" at ", procedure.first)?;
    push_bytes(text, b"\n")
}

/// A procedure by name and number of arguments.
fn push_title(text: &mut Vec<u8>, names: &Names, procedure: &Procedure) -> Result<(), NoMemory>
    ensures { OnOk result (text.new.items ≡ text.old.items ++ title_text names.now (entrance_of procedure.now)) }
{
    push_string(text, names.text_or_empty(procedure.name.name))?;
    push_one(text, b"/", procedure.name.arity)
}

/// An instruction's line.
fn push_line(
    text: &mut Vec<u8>,
    names: &Names,
    code: &Code,
    at: usize,
    instr: &Instr,
) -> Result<(), NoMemory>
    ensures { OnOk result (text.new.items ≡ text.old.items ++ instr_line names.now code.now at instr.now) }
{
    let Ok(at) = u32::try_from(at) else {
        return Err(NoMemory);
    };
    push_decimal(text, at)?;
    push_bytes(text, b" ")?;
    push_instr(text, names, code, instr)?;
    push_bytes(text, b"\n")
}

/// An instruction with its operands.
fn push_instr(text: &mut Vec<u8>, names: &Names, code: &Code, instr: &Instr) -> Result<(), NoMemory>
    ensures { OnOk result (text.new.items ≡ text.old.items ++ instr_text names.now code.now instr.now) }
{
    match instr {
        Instr::Try { clause, next } => push_two(text, b"Try clause=", *clause, b" next=", *next),
        Instr::GetFirst { slot, var } => {
            push_two(text, b"GetFirst slot=", *slot, b" X", *var as u32)
        }
        Instr::GetCons { .. } => push_opener(text, instr),
        Instr::GetTuple { .. } => push_opener(text, instr),
        Instr::PutVar { slot, var, ro } => push_variable(text, *slot, *var, *ro),
        Instr::PutWord { slot, word } => push_word(text, names, *slot, *word),
        Instr::PutCons { .. } => push_builder(text, instr),
        Instr::PutTuple { .. } => push_builder(text, instr),
        Instr::Unify { left, right } => push_two(text, b"Unify left=", *left, b" right=", *right),
        Instr::Jump { to } => push_one(text, b"Jump to=", *to),
        Instr::Test {
            kind,
            left,
            left_len,
            right,
            right_len,
        } => push_test(text, code, *kind, (*left, *left_len), (*right, *right_len)),
        Instr::Otherwise => push_bytes(text, b"Otherwise"),
        Instr::Spawn {
            procedure,
            first,
            parts,
        } => push_spawn(text, names, code, *procedure, *first, *parts),
        Instr::Commit => push_bytes(text, b"Commit"),
    }
}

/// An instruction that opens a value; nothing for any other.
fn push_opener(text: &mut Vec<u8>, instr: &Instr) -> Result<(), NoMemory>
    ensures { OnOk result (text.new.items ≡ text.old.items ++ opener_text instr.now) }
{
    match instr {
        Instr::GetCons {
            slot,
            left,
            right,
            put,
        } => {
            push_two(text, b"GetCons slot=", *slot, b" left=", *left)?;
            push_two(text, b" right=", *right, b" put=", *put)
        }
        Instr::GetTuple {
            slot,
            first,
            parts,
            put,
        } => {
            push_two(text, b"GetTuple slot=", *slot, b" first=", *first)?;
            push_two(text, b" parts=", *parts as u32, b" put=", *put)
        }
        _ => Ok(()),
    }
}

/// An instruction that builds a pair or a tuple; nothing for any other.
fn push_builder(text: &mut Vec<u8>, instr: &Instr) -> Result<(), NoMemory>
    ensures { OnOk result (text.new.items ≡ text.old.items ++ builder_text instr.now) }
{
    match instr {
        Instr::PutCons { slot, left, right } => {
            push_two(text, b"PutCons slot=", *slot, b" left=", *left)?;
            push_one(text, b" right=", *right)
        }
        Instr::PutTuple {
            slot,
            first,
            parts,
            op,
        } => {
            push_two(text, b"PutTuple slot=", *slot, b" first=", *first)?;
            push_one(text, b" parts=", *parts as u32)?;
            push_built_by(text, *op)
        }
        _ => Ok(()),
    }
}

/// An occurrence of a variable that is put.
fn push_variable(text: &mut Vec<u8>, slot: u32, var: u8, ro: bool) -> Result<(), NoMemory>
    ensures { OnOk result (text.new.items ≡ text.old.items ++ (two (codes "PutVar slot=") slot (codes " X") var ++ mark_text ro)) }
{
    push_two(text, b"PutVar slot=", slot, b" X", var as u32)?;
    if ro {
        return push_bytes(text, b"?");
    }
    Ok(())
}

/// A constant that is put.
fn push_word(text: &mut Vec<u8>, names: &Names, slot: u32, word: u64) -> Result<(), NoMemory>
    ensures { OnOk result (text.new.items ≡ text.old.items
        ++ (one (codes "PutWord slot=") slot ++ codes " " ++ constant_text names.now (decoded word))) }
{
    push_one(text, b"PutWord slot=", slot)?;
    push_bytes(text, b" ")?;
    push_constant(text, names, word)
}

/// A constant's word.
fn push_constant(text: &mut Vec<u8>, names: &Names, word: u64) -> Result<(), NoMemory>
    ensures { OnOk result (text.new.items ≡ text.old.items ++ constant_text names.now (decoded word)) }
{
    match decode(word) {
        Some(Cell::Small(number)) => push_bytes(text, Decimal::of(number).as_bytes()),
        Some(Cell::Wide(at, high)) => push_two(text, b"small=", at, b" high=", high as u32),
        Some(Cell::Str(name)) => push_string(text, names.text_or_empty(name)),
        _ => push_bytes(text, b"[]"),
    }
}

/// A test with the steps of its sides.
fn push_test(
    text: &mut Vec<u8>,
    code: &Code,
    kind: TestKind,
    left: (u32, u16),
    right: (u32, u16),
) -> Result<(), NoMemory>
    ensures { OnOk result (text.new.items ≡ text.old.items
        ++ (codes "Test " ++ test_text kind ++ side_text (codes " left") (take left.1 (drop left.0 code.now.steps))
        ++ side_text (codes " right") (take right.1 (drop right.0 code.now.steps)))) }
{
    push_bytes(text, b"Test ")?;
    push_bytes(text, test_name(kind).as_bytes())?;
    push_side(text, b" left", code.steps(left.0, left.1))?;
    push_side(text, b" right", code.steps(right.0, right.1))
}

/// Steps after a label; nothing where there are none.
fn push_side(text: &mut Vec<u8>, label: &[u8], steps: &[ExprStep]) -> Result<(), NoMemory>
    ensures { OnOk result (text.new.items ≡ text.old.items ++ side_text label.now steps.now) }
{
    if steps.is_empty() {
        return Ok(());
    }
    push_bytes(text, label)?;
    for step in steps {
        push_step(text, step)?;
    }
    Ok(())
}

/// A step: the number of a slot, or an operator.
fn push_step(text: &mut Vec<u8>, step: &ExprStep) -> Result<(), NoMemory>
    ensures { OnOk result (text.new.items ≡ text.old.items ++ step_text step.now) }
{
    push_bytes(text, b" ")?;
    match step {
        ExprStep::Push(slot) => match u32::try_from(*slot) {
            Ok(slot) => push_decimal(text, slot),
            Err(_) => Err(NoMemory),
        },
        ExprStep::Apply(op) => push_bytes(text, operator_name(*op).as_bytes()),
    }
}

/// What is said of an operator, where there is one.
fn push_built_by(text: &mut Vec<u8>, op: Option<ArithOp>) -> Result<(), NoMemory>
    ensures { OnOk result (text.new.items ≡ text.old.items ++ built_by_text op) }
{
    match op {
        None => Ok(()),
        Some(op) => {
            push_bytes(text, b" op=")?;
            push_bytes(text, operator_name(op).as_bytes())
        }
    }
}

/// A child that is made.
fn push_spawn(
    text: &mut Vec<u8>,
    names: &Names,
    code: &Code,
    procedure: u32,
    first: u32,
    parts: u8,
) -> Result<(), NoMemory>
    ensures { OnOk result (text.new.items ≡ text.old.items
        ++ (codes "Spawn " ++ called_text names.now code.now.procedures procedure
        ++ two (codes " first=") first (codes " parts=") parts)) }
{
    push_bytes(text, b"Spawn ")?;
    push_called(text, names, code, procedure)?;
    push_two(text, b" first=", first, b" parts=", parts as u32)
}

/// What a number of a procedure calls.
fn push_called(
    text: &mut Vec<u8>,
    names: &Names,
    code: &Code,
    procedure: u32,
) -> Result<(), NoMemory>
    ensures { OnOk result (text.new.items ≡ text.old.items ++ called_text names.now code.now.procedures procedure) }
{
    match code.procedures().get(procedure as usize) {
        Some(found) => push_title(text, names, found),
        None => push_bytes(text, built_in_name(procedure).as_bytes()),
    }
}

/// The name of a built-in process by its number.
fn built_in_name(procedure: u32) -> &'static str
    ensures { result.now ≡ built_in_text procedure }
{
    match procedure {
        TRUE_PROCEDURE => "true/0",
        UNIFY_PROCEDURE => "=/2",
        ASSIGN_PROCEDURE => ":=/2",
        _ => "none",
    }
}

fn operator_name(op: ArithOp) -> &'static str
    ensures { result.now ≡ operator_text op }
{
    match op {
        ArithOp::Add => "+",
        ArithOp::Sub => "-",
        ArithOp::Mul => "*",
        ArithOp::Div => "/",
        ArithOp::Mod => "mod",
    }
}

fn test_name(kind: TestKind) -> &'static str
    ensures { result.now ≡ test_text kind }
{
    match kind {
        TestKind::True => "true",
        TestKind::Integer => "integer",
        TestKind::String => "string",
        TestKind::Constant => "constant",
        TestKind::List => "list",
        TestKind::Tuple => "tuple",
        TestKind::Known => "known",
        TestKind::Unknown => "unknown",
        TestKind::Same => "==",
        TestKind::NotSame => "\\==",
        TestKind::Less => "<",
        TestKind::AtMost => "=<",
        TestKind::Greater => ">",
        TestKind::AtLeast => ">=",
        TestKind::Equal => "=:=",
        TestKind::NotEqual => "=\\=",
    }
}

/// A number after its label.
fn push_one(text: &mut Vec<u8>, label: &[u8], number: u32) -> Result<(), NoMemory>
    ensures { OnOk result (text.new.items ≡ text.old.items ++ one label.now number) }
{
    push_bytes(text, label)?;
    push_decimal(text, number)
}

/// Two numbers, each after its label.
fn push_two(text: &mut Vec<u8>, a: &[u8], x: u32, b: &[u8], y: u32) -> Result<(), NoMemory>
    ensures { OnOk result (text.new.items ≡ text.old.items ++ two a.now x b.now y) }
{
    push_one(text, a, x)?;
    push_one(text, b, y)
}
