// What `rule_modifies_stack` looks at in a node: the 19 kinds in five cases.
ghost use Rattle.image.specs.Promise.{IsNode};
ghost use Rattle.reading.specs.Promise.{LookAt};

use image::Image;
use image::expr::Expr;

#[derive(Clone, Copy)]
pub enum Look {
    // leaves the stack as it is
    Keeps,
    // changes the stack
    Changes,
    // a name: its position in the text and its length
    Named(usize, usize),
    // what its part does
    One(usize),
    // what its left part does, or else its right one
    Two(usize, usize),
}

// What is looked at in a node.
pub fn look_at(image: Image, n: usize) -> Look
    requires { IsNode image.bytes.now n }
    ensures { LookAt image.entry.bytes.now n result }
{
    match image.expr_at(n) {
        Expr::Str(_, _) | Expr::Insens(_, _) | Expr::Range | Expr::PeekSlice(_, _, _) =>
            Look::Keeps,
        Expr::PosPred(_) | Expr::NegPred(_) => Look::Keeps,
        Expr::Push(_) | Expr::PushLiteral(_, _) => Look::Changes,
        Expr::Ident(at, len) => Look::Named(at, len),
        Expr::Seq(left, right) | Expr::Choice(left, right) => Look::Two(left, right),
        Expr::Opt(part)
        | Expr::Rep(part)
        | Expr::RepOnce(part)
        | Expr::RepExact(part, _)
        | Expr::RepMin(part, _)
        | Expr::RepMax(part, _)
        | Expr::RepMinMax(part, _, _)
        | Expr::NodeTag(part) => Look::One(part),
    }
}
