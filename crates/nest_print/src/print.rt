//! Canonical text: the one way in which a program is printed.
ghost use Rattle.std.specs.Prelude.{◌≡◌, ◌++◌, [], map, if◌then◌else◌, IfOk, OnOk};
ghost use Rattle.nest_print.specs.Canonical as text;
ghost use Rattle.nest_print.specs.Same.{IsSpelled, ComesBack};
ghost use Rattle.nest_syntax.specs.Named.{IsWellNamed};
ghost use Rattle.nest_lex.specs.Text.{AreTokens};
ghost use Rattle.nest_lex.specs.declared.token.Tokens.{Tokens};

use itoa::Buffer;
use nest_syntax::{Arm, Bin, Decl, Expr, Loop, Name, NoMemory, Op, Program, Stmt, Un};
use std::alloc::Global;

/// How an expression stands: alone, as the high bound of a loop, or as an operand.
#[derive(Clone, Copy, Debug, PartialEq, Eq)]
pub(crate) enum Standing {
    Alone,
    Bound,
    Operand,
}

fn unary_text(op: Un) -> &'static [u8]
    ensures { result.now ≡ text.unary_text op }
{
    match op {
        Un::Neg => b"-",
        Un::Not => b"!",
        Un::Flip => b"~",
    }
}

fn binary_text(op: Bin) -> &'static [u8]
    ensures { result.now ≡ text.binary_text op }
{
    match op {
        Bin::Add => b" + ",
        Bin::Sub => b" - ",
        Bin::Mul => b" * ",
        Bin::Div => b" / ",
        Bin::Rem => b" % ",
        Bin::Shl => b" << ",
        Bin::Shr => b" >> ",
        Bin::And => b" & ",
        Bin::Xor => b" ^ ",
        Bin::Or => b" | ",
        Bin::Less => b" < ",
        Bin::LessEq => b" <= ",
        Bin::More => b" > ",
        Bin::MoreEq => b" >= ",
        Bin::Equal => b" == ",
        Bin::NotEqual => b" != ",
        Bin::Both => b" && ",
        Bin::Either => b" || ",
    }
}

fn assignment_text(op: Op) -> &'static [u8]
    ensures { result.now ≡ text.assignment_text op }
{
    match op {
        Op::Set => b" = ",
        Op::Add => b" += ",
        Op::Sub => b" -= ",
        Op::Mul => b" *= ",
        Op::Div => b" /= ",
        Op::Rem => b" %= ",
        Op::Shl => b" <<= ",
        Op::Shr => b" >>= ",
        Op::And => b" &= ",
        Op::Xor => b" ^= ",
        Op::Or => b" |= ",
    }
}

fn is_tight(op: Bin) -> bool
    ensures { result ≡ text.is_tight op }
{
    match op {
        Bin::Add | Bin::Sub | Bin::Mul | Bin::Div | Bin::Rem | Bin::Shl | Bin::Shr => true,
        _ => false,
    }
}

fn is_binary_enclosed(standing: Standing, op: Bin) -> bool
    ensures { result ≡ text.is_binary_enclosed standing op }
{
    match standing {
        Standing::Alone => false,
        Standing::Bound => !is_tight(op),
        Standing::Operand => true,
    }
}

fn is_unary_enclosed(standing: Standing) -> bool
    ensures { result ≡ text.is_unary_enclosed standing }
{
    match standing {
        Standing::Operand => true,
        _ => false,
    }
}

fn is_choice_enclosed(standing: Standing) -> bool
    ensures { result ≡ text.is_choice_enclosed standing }
{
    match standing {
        Standing::Alone => false,
        _ => true,
    }
}

fn name_text(names: &[Name], name: u32) -> &[u8]
    ensures { result.now ≡ text.name_text names.now name }
{
    match names.get(name as usize) {
        Some(bytes) => bytes.as_slice(),
        None => &[],
    }
}

fn add_if(out: &mut Vec<u8>, wanted: bool, bytes: &[u8]) -> Result<(), NoMemory>
    ensures { OnOk result (out.new.items ≡ out.old.items ++ (if wanted then bytes.now else [])) }
{
    if wanted {
        out.extend_from_slice(bytes)?;
    }
    Ok(())
}

fn add_expr(
    out: &mut Vec<u8>,
    names: &[Name],
    expr: &Expr,
    standing: Standing,
) -> Result<(), NoMemory>
    ensures { OnOk result (out.new.items ≡ out.old.items ++ text.expr_text names.now expr.now standing) }
{
    match expr {
        Expr::Number(number) => {
            let mut digits = Buffer::new();
            out.extend_from_slice(digits.format(*number).as_bytes())?;
        }
        Expr::Scalar(name) => out.extend_from_slice(name_text(names, *name))?,
        Expr::Word(name, place) => {
            out.extend_from_slice(name_text(names, *name))?;
            out.extend_from_slice(b"[")?;
            add_expr(out, names, place.get(), Standing::Alone)?;
            out.extend_from_slice(b"]")?;
        }
        Expr::Unary(op, part) => {
            let enclosed = is_unary_enclosed(standing);
            add_if(out, enclosed, b"(")?;
            out.extend_from_slice(unary_text(*op))?;
            add_expr(out, names, part.get(), Standing::Operand)?;
            add_if(out, enclosed, b")")?;
        }
        Expr::Binary(op, left, right) => {
            let enclosed = is_binary_enclosed(standing, *op);
            add_if(out, enclosed, b"(")?;
            add_expr(out, names, left.get(), Standing::Operand)?;
            out.extend_from_slice(binary_text(*op))?;
            add_expr(out, names, right.get(), Standing::Operand)?;
            add_if(out, enclosed, b")")?;
        }
        Expr::Choice(test, first, second) => {
            let enclosed = is_choice_enclosed(standing);
            add_if(out, enclosed, b"(")?;
            add_expr(out, names, test.get(), Standing::Operand)?;
            out.extend_from_slice(b" ? ")?;
            add_expr(out, names, first.get(), Standing::Operand)?;
            out.extend_from_slice(b" : ")?;
            add_expr(out, names, second.get(), Standing::Operand)?;
            add_if(out, enclosed, b")")?;
        }
    }
    Ok(())
}

fn add_word(out: &mut Vec<u8>, names: &[Name], array: u32, place: &Expr) -> Result<(), NoMemory>
    ensures { OnOk result (out.new.items ≡ out.old.items ++ text.word_text (text.name_text names.now array) (text.expr_text names.now place.now Standing.Alone)) }
{
    out.extend_from_slice(name_text(names, array))?;
    out.extend_from_slice(b"[")?;
    add_expr(out, names, place, Standing::Alone)?;
    out.extend_from_slice(b"]")?;
    Ok(())
}

/// The spaces of a block inside one with these spaces.
fn deeper(alloc: Global, indent: &[u8]) -> Result<Vec<u8>, NoMemory>
    ensures { IfOk result (λ spaces. spaces.items ≡ text.deeper indent.now) }
{
    let mut spaces = Vec::from_slice(alloc, indent)?;
    spaces.extend_from_slice(b"  ")?;
    Ok(spaces)
}

#[cycle(print)]
fn add_block(
    alloc: Global,
    out: &mut Vec<u8>,
    names: &[Name],
    body: &[Stmt],
    indent: &[u8],
) -> Result<(), NoMemory>
    ensures { OnOk result (out.new.items ≡ out.old.items ++ text.block_text indent.now (map (text.statement_text names.now) body.now)) }
{
    let spaces = deeper(alloc, indent)?;
    out.extend_from_slice(b"{\n")?;
    'list: for stmt in body {
        add_stmt(alloc, out, names, stmt, spaces.as_slice())?;
    }
    out.extend_from_slice(indent)?;
    out.extend_from_slice(b"}")?;
    Ok(())
}

#[cycle(print)]
fn add_arm(
    alloc: Global,
    out: &mut Vec<u8>,
    names: &[Name],
    arm: &Arm,
    indent: &[u8],
) -> Result<(), NoMemory>
    ensures { OnOk result (out.new.items ≡ out.old.items ++ text.one_arm_text names.now arm.now indent.now) }
{
    out.extend_from_slice(b"if (")?;
    add_expr(out, names, &arm.test, Standing::Alone)?;
    out.extend_from_slice(b") ")?;
    add_block(alloc, out, names, arm.body.as_slice(), indent)
}

/// All arms and the last block.
#[cycle(print)]
fn add_arms(
    alloc: Global,
    out: &mut Vec<u8>,
    names: &[Name],
    arms: &[Arm],
    indent: &[u8],
) -> Result<(), NoMemory>
    ensures { OnOk result (out.new.items ≡ out.old.items ++ text.arms_text indent.now (map (text.one_arm_text names.now) arms.now)) }
{
    let [first, further @ ..] = arms else {
        return Ok(());
    };
    add_arm(alloc, out, names, first, indent)?;
    'arms: for arm in further {
        out.extend_from_slice(b" else ")?;
        add_arm(alloc, out, names, arm, indent)?;
    }
    Ok(())
}

/// The last block of an `if`, if it isn't empty.
#[cycle(print)]
fn add_other(
    alloc: Global,
    out: &mut Vec<u8>,
    names: &[Name],
    other: &[Stmt],
    indent: &[u8],
) -> Result<(), NoMemory>
    ensures { OnOk result (out.new.items ≡ out.old.items ++ text.other_text indent.now (map (text.statement_text names.now) other.now)) }
{
    if other.is_empty() {
        return Ok(());
    }
    out.extend_from_slice(b" else ")?;
    add_block(alloc, out, names, other, indent)
}

#[cycle(print)]
fn add_stmt(
    alloc: Global,
    out: &mut Vec<u8>,
    names: &[Name],
    stmt: &Stmt,
    indent: &[u8],
) -> Result<(), NoMemory>
    ensures { OnOk result (out.new.items ≡ out.old.items ++ text.statement_text names.now stmt.now indent.now) }
{
    match stmt {
        Stmt::Declare { name, value, .. } => {
            out.extend_from_slice(indent)?;
            out.extend_from_slice(b"long ")?;
            out.extend_from_slice(name_text(names, *name))?;
            out.extend_from_slice(b" = ")?;
            add_expr(out, names, value, Standing::Alone)?;
            out.extend_from_slice(b";\n")?;
        }
        Stmt::Assign {
            name,
            op,
            value,
            ..
        } => {
            out.extend_from_slice(indent)?;
            out.extend_from_slice(name_text(names, *name))?;
            out.extend_from_slice(assignment_text(*op))?;
            add_expr(out, names, value, Standing::Alone)?;
            out.extend_from_slice(b";\n")?;
        }
        Stmt::Write {
            array,
            place,
            op,
            value,
            ..
        } => {
            out.extend_from_slice(indent)?;
            add_word(out, names, *array, place)?;
            out.extend_from_slice(assignment_text(*op))?;
            add_expr(out, names, value, Standing::Alone)?;
            out.extend_from_slice(b";\n")?;
        }
        Stmt::If { arms, other } => {
            out.extend_from_slice(indent)?;
            add_arms(alloc, out, names, arms.as_slice(), indent)?;
            add_other(alloc, out, names, other.as_slice(), indent)?;
            out.extend_from_slice(b"\n")?;
        }
        Stmt::Loop(turns) => add_loop(alloc, out, names, turns, indent)?,
    }
    Ok(())
}

/// The variable of a loop and its two bounds.
fn add_bounds(
    out: &mut Vec<u8>,
    names: &[Name],
    name: u32,
    low: &Expr,
    through: bool,
    high: &Expr,
) -> Result<(), NoMemory>
    ensures { OnOk result (out.new.items ≡ out.old.items ++ text.bounds_text names.now name low.now through high.now) }
{
    let name = name_text(names, name);
    out.extend_from_slice(b"long ")?;
    out.extend_from_slice(name)?;
    out.extend_from_slice(b" = ")?;
    add_expr(out, names, low, Standing::Alone)?;
    out.extend_from_slice(b"; ")?;
    out.extend_from_slice(name)?;
    out.extend_from_slice(comparison_text(through))?;
    add_expr(out, names, high, Standing::Bound)?;
    out.extend_from_slice(b"; ")?;
    Ok(())
}

fn comparison_text(through: bool) -> &'static [u8]
    ensures { result.now ≡ text.comparison_text through }
{
    if through { b" <= " } else { b" < " }
}

fn add_step(out: &mut Vec<u8>, step: u64) -> Result<(), NoMemory>
    ensures { OnOk result (out.new.items ≡ out.old.items ++ text.step_text step) }
{
    if step == 1 {
        out.extend_from_slice(b"++")?;
    } else {
        let mut digits = Buffer::new();
        out.extend_from_slice(b" += ")?;
        out.extend_from_slice(digits.format(step).as_bytes())?;
    }
    Ok(())
}

#[cycle(print)]
fn add_loop(
    alloc: Global,
    out: &mut Vec<u8>,
    names: &[Name],
    turns: &Loop,
    indent: &[u8],
) -> Result<(), NoMemory>
    ensures { OnOk result (out.new.items ≡ out.old.items ++ text.region_text names.now turns.now indent.now) }
{
    out.extend_from_slice(indent)?;
    out.extend_from_slice(b"for (")?;
    add_bounds(
        out,
        names,
        turns.name,
        &turns.low,
        turns.through,
        &turns.high,
    )?;
    out.extend_from_slice(name_text(names, turns.name))?;
    add_step(out, turns.step)?;
    out.extend_from_slice(b") ")?;
    add_block(alloc, out, names, turns.body.as_slice(), indent)?;
    out.extend_from_slice(b"\n")?;
    Ok(())
}

fn fixed_text(fixed: bool) -> &'static [u8]
    ensures { result.now ≡ text.fixed_text fixed }
{
    if fixed { b"const long " } else { b"long " }
}

fn add_decl(out: &mut Vec<u8>, names: &[Name], decl: &Decl) -> Result<(), NoMemory>
    ensures { OnOk result (out.new.items ≡ out.old.items ++ text.decl_text names.now decl.now) }
{
    let mut digits = Buffer::new();
    match decl {
        Decl::Array {
            name,
            length,
            fixed,
            ..
        } => {
            out.extend_from_slice(fixed_text(*fixed))?;
            out.extend_from_slice(name_text(names, *name))?;
            out.extend_from_slice(b"[")?;
            out.extend_from_slice(digits.format(*length).as_bytes())?;
            out.extend_from_slice(b"];\n")?;
        }
        Decl::Scalar { name, value, .. } => {
            out.extend_from_slice(b"long ")?;
            out.extend_from_slice(name_text(names, *name))?;
            out.extend_from_slice(b" = ")?;
            out.extend_from_slice(digits.format(*value).as_bytes())?;
            out.extend_from_slice(b";\n")?;
        }
    }
    Ok(())
}

/// The canonical text of a program: declarations and statements on lines of their own, two spaces for each depth of
/// blocks, parentheses round each operand that isn't a number, a name or a word, and no comment.
///
/// It comes back: where some text spells the program and the canonical text has tokens, these derive the same program
/// but for its lines, with the same numbers of names. A text with long runs or many open brackets has no tokens.
pub fn print_program(alloc: Global, program: &Program) -> Result<Vec<u8>, NoMemory>
    requires { IsWellNamed program.now }
    ensures canonical { IfOk result (λ out. out.items ≡ text.canonical_text program.now) }
    ensures comes_back { IsSpelled program.now → IfOk result (λ out. (again : Tokens) → AreTokens out.items again → ComesBack program.now again) }
{
    let names = program.names.as_slice();
    let mut out = Vec::new(alloc);
    let decls = program.decls.as_slice();
    let regions = program.regions.as_slice();
    'decls: for decl in decls {
        add_decl(&mut out, names, decl)?;
    }
    'regions: for region in regions {
        add_loop(alloc, &mut out, names, region, &[])?;
    }
    Ok(out)
}
