// Statements and what blocks consist of (ISO C11 6.8).
ghost use Rattle.std.specs.Prelude.{◌≡◌, IfOk, option_map};
ghost use Rattle.tree_data.specs.Heads.{heading_of};
ghost use Rattle.tree_data.specs.Seen.{tree_of};
ghost use Rattle.tree_data.specs.Stated as seen;
ghost use Rattle.tree_data.specs.Stated.{item_of, lead_of, stmt_of};
ghost use Rattle.tree_data.specs.Statements as spec;

use crate::expr::Expr;
use crate::heads::Head;
use std::alloc::{AllocError, Global};

/// A statement (6.8). Its tree is what stands in front of it, in order, and what ends it; a statement without anything in front of it
/// costs no list.
#[derive(Drop)]
#[cycle(statements)]
pub enum Stmt {
    /// `{`, what the block consists of, and `}` (6.8.2).
    Block(u32, Vec<Item>, u32),
    /// An expression, if there is one, and `;` (6.8.3).
    Expression(Option<Box<Expr>>, u32),
    /// `goto`, the label, and `;` (6.8.6.1).
    Goto(u32, u32, u32),
    /// `continue ;` (6.8.6.2).
    Continue(u32, u32),
    /// `break ;` (6.8.6.3).
    Break(u32, u32),
    /// `return`, an expression, if there is one, and `;` (6.8.6.4).
    Return(u32, Option<Box<Expr>>, u32),
    /// `do statement while ( expression ) ;` (6.8.5.2).
    Do(u32, Box<Stmt>, u32, u32, Box<Expr>, u32, u32),
    /// A statement with all that stands in front of it, from left to right.
    Led(Vec<Lead>, Box<Stmt>),
}

/// What stands in front of a statement and makes one together with it.
#[derive(Drop)]
#[cycle(statements)]
pub enum Lead {
    /// `name :` (6.8.1).
    Label(u32, u32),
    /// `case constant-expression :` (6.8.1).
    Case(u32, Box<Expr>, u32),
    /// `default :` (6.8.1).
    Default(u32, u32),
    /// `if ( expression )`, with no `else` for it (6.8.4.1).
    If(u32, u32, Box<Expr>, u32),
    /// `if ( expression ) statement else` (6.8.4.1).
    IfElse(u32, u32, Box<Expr>, u32, Box<Stmt>, u32),
    /// `switch ( expression )` (6.8.4.2).
    Switch(u32, u32, Box<Expr>, u32),
    /// `while ( expression )` (6.8.5.1).
    While(u32, u32, Box<Expr>, u32),
    /// `for ( expression ; expression ; expression )`, each of the three if it is there (6.8.5.3).
    For(u32, u32, Option<Box<Expr>>, u32, Option<Box<Expr>>, u32, Option<Box<Expr>>, u32),
    /// `for ( declaration expression ; expression )`, each of the two if it is there (6.8.5.3); the declaration has its `;`.
    ForDeclaring(u32, u32, Box<Head>, Option<Box<Expr>>, u32, Option<Box<Expr>>, u32),
}

/// What a block consists of (6.8.2).
#[derive(Drop)]
#[cycle(statements)]
pub enum Item {
    /// A declaration, with its `;`.
    Declared(Box<Head>),
    Stated(Stmt),
}

// An expression on its own, if there is one.
fn boxed(alloc: Global, expr: Option<Expr>) -> Result<Option<Box<Expr>>, AllocError>
    ensures { IfOk result (λ b. option_map (λ e. tree_of e.value) b ≡ option_map tree_of expr) }
{
    let Some(expr) = expr else {
        return Ok(None);
    };
    let expr = Box::new(alloc, expr)?;
    Ok(Some(expr))
}

impl Stmt {
    /// A compound statement.
    pub fn block(opening: u32, items: Vec<Item>, closing: u32) -> Stmt
        ensures { stmt_of result ≡ spec.bare (spec.Block_of opening (spec.items (seen.items_of items.items)) closing) }
    {
        Stmt::Block(opening, items, closing)
    }

    /// An expression statement, or a null statement.
    pub fn expression(alloc: Global, expr: Option<Expr>, semicolon: u32) -> Result<Stmt, AllocError>
        ensures { IfOk result (λ s. stmt_of s ≡ spec.bare (spec.Expression_of (option_map tree_of expr) semicolon)) }
    {
        let expr = boxed(alloc, expr)?;
        Ok(Stmt::Expression(expr, semicolon))
    }

    /// A jump to a label.
    pub fn goto_label(keyword: u32, label: u32, semicolon: u32) -> Stmt
        ensures { stmt_of result ≡ spec.bare (spec.Goto_of keyword label semicolon) }
    {
        Stmt::Goto(keyword, label, semicolon)
    }

    /// `continue`.
    pub fn continues(keyword: u32, semicolon: u32) -> Stmt
        ensures { stmt_of result ≡ spec.bare (spec.Continue_of keyword semicolon) }
    {
        Stmt::Continue(keyword, semicolon)
    }

    /// `break`.
    pub fn breaks(keyword: u32, semicolon: u32) -> Stmt
        ensures { stmt_of result ≡ spec.bare (spec.Break_of keyword semicolon) }
    {
        Stmt::Break(keyword, semicolon)
    }

    /// `return`, with a value or without.
    pub fn returns(
        alloc: Global,
        keyword: u32,
        value: Option<Expr>,
        semicolon: u32,
    ) -> Result<Stmt, AllocError>
        ensures { IfOk result (λ s. stmt_of s ≡ spec.bare (spec.Return_of keyword (option_map tree_of value) semicolon)) }
    {
        let value = boxed(alloc, value)?;
        Ok(Stmt::Return(keyword, value, semicolon))
    }

    /// A loop with its test behind it.
    pub fn do_while(
        alloc: Global,
        keyword: u32,
        body: Stmt,
        behind: u32,
        opening: u32,
        test: Expr,
        closing: u32,
        semicolon: u32,
    ) -> Result<Stmt, AllocError>
        ensures { IfOk result (λ s. stmt_of s
            ≡ spec.bare (spec.Do_of keyword (stmt_of body) behind opening (tree_of test) closing semicolon)) }
    {
        let body = Box::new(alloc, body)?;
        let test = Box::new(alloc, test)?;
        Ok(Stmt::Do(keyword, body, behind, opening, test, closing, semicolon))
    }

    /// A statement with these in front of it.
    pub fn led(alloc: Global, leads: Vec<Lead>, stmt: Stmt) -> Result<Stmt, AllocError>
        ensures { IfOk result (λ s. stmt_of s ≡ spec.led (seen.leads_of leads.items) (stmt_of stmt)) }
    {
        if leads.as_slice().is_empty() {
            return Ok(stmt);
        }
        let stmt = Box::new(alloc, stmt)?;
        Ok(Stmt::Led(leads, stmt))
    }
}

impl Lead {
    /// A label.
    pub fn label(name: u32, colon: u32) -> Lead
        ensures { lead_of result ≡ spec.Label_of name colon }
    {
        Lead::Label(name, colon)
    }

    /// `case` and a value.
    pub fn case(alloc: Global, keyword: u32, value: Expr, colon: u32) -> Result<Lead, AllocError>
        ensures { IfOk result (λ l. lead_of l ≡ spec.Case_of keyword (tree_of value) colon) }
    {
        let value = Box::new(alloc, value)?;
        Ok(Lead::Case(keyword, value, colon))
    }

    /// `default`.
    pub fn default_label(keyword: u32, colon: u32) -> Lead
        ensures { lead_of result ≡ spec.Default_label_of keyword colon }
    {
        Lead::Default(keyword, colon)
    }

    /// `if` without an `else`.
    pub fn when(
        alloc: Global,
        keyword: u32,
        opening: u32,
        test: Expr,
        closing: u32,
    ) -> Result<Lead, AllocError>
        ensures { IfOk result (λ l. lead_of l ≡ spec.If_of keyword opening (tree_of test) closing) }
    {
        let test = Box::new(alloc, test)?;
        Ok(Lead::If(keyword, opening, test, closing))
    }

    /// `if` with an `else`, and the statement in front of that.
    pub fn when_else(
        alloc: Global,
        keyword: u32,
        opening: u32,
        test: Expr,
        closing: u32,
        chosen: Stmt,
        otherwise: u32,
    ) -> Result<Lead, AllocError>
        ensures { IfOk result (λ l. lead_of l
            ≡ spec.If_else_of keyword opening (tree_of test) closing (stmt_of chosen) otherwise) }
    {
        let test = Box::new(alloc, test)?;
        let chosen = Box::new(alloc, chosen)?;
        Ok(Lead::IfElse(keyword, opening, test, closing, chosen, otherwise))
    }

    /// `switch`.
    pub fn switch(
        alloc: Global,
        keyword: u32,
        opening: u32,
        value: Expr,
        closing: u32,
    ) -> Result<Lead, AllocError>
        ensures { IfOk result (λ l. lead_of l ≡ spec.Switch_of keyword opening (tree_of value) closing) }
    {
        let value = Box::new(alloc, value)?;
        Ok(Lead::Switch(keyword, opening, value, closing))
    }

    /// `while`.
    pub fn while_test(
        alloc: Global,
        keyword: u32,
        opening: u32,
        test: Expr,
        closing: u32,
    ) -> Result<Lead, AllocError>
        ensures { IfOk result (λ l. lead_of l ≡ spec.While_of keyword opening (tree_of test) closing) }
    {
        let test = Box::new(alloc, test)?;
        Ok(Lead::While(keyword, opening, test, closing))
    }

    /// `for` with an expression in front, or nothing.
    pub fn for_loop(
        alloc: Global,
        keyword: u32,
        opening: u32,
        first: Option<Expr>,
        behind_first: u32,
        test: Option<Expr>,
        behind_test: u32,
        step: Option<Expr>,
        closing: u32,
    ) -> Result<Lead, AllocError>
        ensures { IfOk result (λ l. lead_of l ≡ spec.For_of keyword opening (option_map tree_of first) behind_first
            (option_map tree_of test) behind_test (option_map tree_of step) closing) }
    {
        let first = boxed(alloc, first)?;
        let test = boxed(alloc, test)?;
        let step = boxed(alloc, step)?;
        Ok(Lead::For(
            keyword,
            opening,
            first,
            behind_first,
            test,
            behind_test,
            step,
            closing,
        ))
    }

    /// `for` with a declaration in front.
    pub fn for_declaring(
        alloc: Global,
        keyword: u32,
        opening: u32,
        first: Head,
        test: Option<Expr>,
        behind_test: u32,
        step: Option<Expr>,
        closing: u32,
    ) -> Result<Lead, AllocError>
        ensures { IfOk result (λ l. lead_of l ≡ spec.For_declaring_of keyword opening (heading_of first)
            (option_map tree_of test) behind_test (option_map tree_of step) closing) }
    {
        let first = Box::new(alloc, first)?;
        let test = boxed(alloc, test)?;
        let step = boxed(alloc, step)?;
        Ok(Lead::ForDeclaring(keyword, opening, first, test, behind_test, step, closing))
    }
}

impl Item {
    /// A declaration.
    pub fn declared(alloc: Global, declaration: Head) -> Result<Item, AllocError>
        ensures { IfOk result (λ i. item_of i ≡ spec.Declared_of (heading_of declaration)) }
    {
        let declaration = Box::new(alloc, declaration)?;
        Ok(Item::Declared(declaration))
    }

    /// A statement.
    pub fn stated(stmt: Stmt) -> Item
        ensures { item_of result ≡ spec.Stated_of (stmt_of stmt) }
    {
        Item::Stated(stmt)
    }
}
