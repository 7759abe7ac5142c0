//! Reads the tokens of an expression one by one, with a stack of the groups that are open.

ghost use Rattle.std.specs.Prelude.{◌≡◌, ◌↔◌, ℕ, OnOk, IfOk, IfErr, List, [], ◌∷◌, ◌++◌, Some, alloc_error};
ghost use Rattle.desk_expr.specs.Tree.{one, Tree};
ghost use Rattle.desk_expr.specs.Grammar.{all_of, any_of, Symbol, SpellsTree};
ghost use Rattle.desk_tokens.specs.Words.{IsWordOf};
ghost use Rattle.desk_expr.specs.Spelling.{symbol};
ghost use Rattle.desk_expr.specs.Reading.{Rest, Steps, Stops, EndsWith};

use crate::expr::{Expr, Leaf};
use crate::word::{Halt, exception_of, leaf_of, push, with_exception};
use desk_tokens::{Kind, Token};
use std::alloc::Global;

/// An OR list that is being read: the AND lists before the last one, and the operands of the last
/// one before its last operand.
#[derive(Drop)]
pub(crate) struct Group {
    pub(crate) lists: Vec<Expr>,
    pub(crate) operands: Vec<Expr>,
}

/// What comes before the next token.
#[derive(Drop)]
pub(crate) enum State {
    /// An operand is wanted.
    Operand,
    /// A word, which an exception may follow.
    Word(Leaf),
    /// A word and `WITH`.
    Exception(Leaf),
    /// A whole operand.
    Done(Expr),
}

/// The groups that are open, with the innermost one apart, and what comes before the next token.
#[derive(Drop)]
pub(crate) struct Reader {
    pub(crate) outer: Vec<Group>,
    pub(crate) inner: Group,
    pub(crate) state: State,
}

// The tree of an AND list whose last part is known.
fn all_of(mut parts: Vec<Expr>, last: Expr) -> Result<Expr, Halt>
    ensures ok { IfOk result (λ e. e ≡ all_of (parts.items ++ last ∷ [])) }
    ensures err { IfErr result (λ h. h ≡ Halt.Memory alloc_error) }
{
    if parts.is_empty() {
        return Ok(last);
    }
    push(&mut parts, last)?;
    Ok(Expr::all(parts))
}

// The tree of an OR list whose last part is known.
fn any_of(mut parts: Vec<Expr>, last: Expr) -> Result<Expr, Halt>
    ensures ok { IfOk result (λ e. e ≡ any_of (parts.items ++ last ∷ [])) }
    ensures err { IfErr result (λ h. h ≡ Halt.Memory alloc_error) }
{
    if parts.is_empty() {
        return Ok(last);
    }
    push(&mut parts, last)?;
    Ok(Expr::any(parts))
}

// The tree of a whole group whose last operand is known.
fn tree_of(inner: Group, operand: Expr) -> Result<Expr, Halt>
    ensures ok { IfOk result (λ e. e ≡ any_of (inner.lists.items ++ all_of
        (inner.operands.items ++ operand ∷ []) ∷ [])) }
    ensures err { IfErr result (λ h. h ≡ Halt.Memory alloc_error) }
{
    let Group { lists, operands } = inner;
    let list = all_of(operands, operand)?;
    any_of(lists, list)
}

impl Group {
    fn new(alloc: Global) -> Group
        ensures lists { result.lists.items ≡ [] }
        ensures operands { result.operands.items ≡ [] }
    {
        Group {
            lists: Vec::new(alloc),
            operands: Vec::new(alloc),
        }
    }
}

// An operand is wanted.
fn operand(
    alloc: Global,
    mut outer: Vec<Group>,
    inner: Group,
    token: &Token<'_>,
) -> Result<Reader, Halt>
    requires { IsWordOf token.now.kind token.now.text.now }
    ensures ok { IfOk result (λ n. Steps
        (record { outer = outer; inner = inner; state = State.Operand })
        (symbol token.now.kind token.now.text.now) n) }
    ensures err { IfErr result
        (Stops (record { outer = outer; inner = inner; state = State.Operand })
        (symbol token.now.kind token.now.text.now)) }
{
    match token.kind {
        Kind::Opening => {
            push(&mut outer, inner)?;
            Ok(Reader {
                outer,
                inner: Group::new(alloc),
                state: State::Operand,
            })
        }
        _ => match leaf_of(alloc, token.kind, token.text) {
            Ok(leaf) => Ok(Reader {
                outer,
                inner,
                state: State::Word(leaf),
            }),
            Err(halt) => Err(halt),
        },
    }
}

// There is a word, and perhaps an exception follows.
fn word(
    alloc: Global,
    outer: Vec<Group>,
    inner: Group,
    leaf: Leaf,
    token: &Token<'_>,
) -> Result<Reader, Halt>
    ensures ok { IfOk result (λ n. Steps
        (record { outer = outer; inner = inner; state = State.Word leaf })
        (symbol token.now.kind token.now.text.now) n) }
    ensures err { IfErr result (Stops
        (record { outer = outer; inner = inner; state = State.Word leaf })
        (symbol token.now.kind token.now.text.now)) }
{
    match token.kind {
        Kind::With => Ok(Reader {
            outer,
            inner,
            state: State::Exception(leaf),
        }),
        _ => after(alloc, outer, inner, Expr::one(leaf), token),
    }
}

// An exception is wanted.
fn exception(
    alloc: Global,
    outer: Vec<Group>,
    inner: Group,
    leaf: Leaf,
    token: &Token<'_>,
) -> Result<Reader, Halt>
    requires { IsWordOf token.now.kind token.now.text.now }
    ensures ok { IfOk result (λ n. Steps
        (record { outer = outer; inner = inner; state = State.Exception leaf })
        (symbol token.now.kind token.now.text.now) n) }
    ensures err { IfErr result (Stops
        (record { outer = outer; inner = inner; state = State.Exception leaf })
        (symbol token.now.kind token.now.text.now)) }
{
    let key = exception_of(alloc, token.kind, token.text)?;
    Ok(Reader {
        outer,
        inner,
        state: State::Done(Expr::one(with_exception(leaf, key))),
    })
}

// An operand has ended, and the token follows it.
fn after(
    alloc: Global,
    mut outer: Vec<Group>,
    mut inner: Group,
    operand: Expr,
    token: &Token<'_>,
) -> Result<Reader, Halt>
    ensures ok { IfOk result (λ n. Steps
        (record { outer = outer; inner = inner; state = State.Done operand })
        (symbol token.now.kind token.now.text.now) n) }
    ensures err { IfErr result (Stops
        (record { outer = outer; inner = inner; state = State.Done operand })
        (symbol token.now.kind token.now.text.now)) }
{
    match token.kind {
        Kind::And => {
            push(&mut inner.operands, operand)?;
            Ok(Reader {
                outer,
                inner,
                state: State::Operand,
            })
        }
        Kind::Or => {
            let Group {
                mut lists,
                operands,
            } = inner;
            let list = all_of(operands, operand)?;
            push(&mut lists, list)?;
            Ok(Reader {
                outer,
                inner: Group {
                    lists,
                    operands: Vec::new(alloc),
                },
                state: State::Operand,
            })
        }
        Kind::Closing => match outer.pop() {
            None => Err(Halt::Unexpected),
            Some(around) => {
                let whole = tree_of(inner, operand)?;
                Ok(Reader {
                    outer,
                    inner: around,
                    state: State::Done(whole),
                })
            }
        },
        _ => Err(Halt::Unexpected),
    }
}

// The tree at the end, if the last operand is known.
fn whole(mut outer: Vec<Group>, inner: Group, operand: Expr) -> Result<Expr, Halt>
    ensures ok { IfOk result (λ e. (other : Tree)
        → Rest (record { outer = outer; inner = inner; state = State.Done operand }) [] other
        ↔ (e ≡ other)) }
    ensures err { IfErr result (EndsWith
        (record { outer = outer; inner = inner; state = State.Done operand })) }
{
    match outer.pop() {
        Some(_) => Err(Halt::Unclosed),
        None => tree_of(inner, operand),
    }
}

impl Reader {
    // A reader of nothing yet.
    pub(crate) fn new(alloc: Global) -> Reader
        ensures { (r : List Symbol) (e : Tree) → SpellsTree r e ↔ Rest result r e }
    {
        Reader {
            outer: Vec::new(alloc),
            inner: Group::new(alloc),
            state: State::Operand,
        }
    }

    // Reads one token.
    pub(crate) fn step(self, alloc: Global, token: &Token<'_>) -> Result<Reader, Halt>
        requires { IsWordOf token.now.kind token.now.text.now }
        ensures ok { IfOk result (Steps self (symbol token.now.kind token.now.text.now)) }
        ensures err { IfErr result (Stops self (symbol token.now.kind token.now.text.now)) }
    {
        let Reader {
            outer,
            inner,
            state,
        } = self;
        match state {
            State::Operand => operand(alloc, outer, inner, token),
            State::Word(leaf) => word(alloc, outer, inner, leaf, token),
            State::Exception(leaf) => exception(alloc, outer, inner, leaf, token),
            State::Done(tree) => after(alloc, outer, inner, tree, token),
        }
    }

    // The tree, if the tokens can end here.
    pub(crate) fn finish(self) -> Result<Expr, Halt>
        ensures ok { IfOk result (λ e. (other : Tree) → Rest self [] other ↔ (e ≡ other)) }
        ensures err { IfErr result (EndsWith self) }
    {
        let Reader {
            outer,
            inner,
            state,
        } = self;
        match state {
            State::Operand => Err(Halt::Unexpected),
            State::Word(leaf) => whole(outer, inner, Expr::one(leaf)),
            State::Exception(_) => Err(Halt::Unexpected),
            State::Done(tree) => whole(outer, inner, tree),
        }
    }
}
