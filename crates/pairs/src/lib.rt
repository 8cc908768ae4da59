// A shape word and a class word taken together (document 01, "Order": 1, 3, 2, 4, 5). The call takes every input.

#![tactic(auto)]

ghost use Rattle.std.specs.Prelude.{◌≡◌};
ghost use Rattle.theory.specs.Limits.{degree_limit};
ghost use Rattle.pairs.specs.Pairs.{common_told, degree_of_both};

use words::Refusal;

// What a shape word and a class word have in common: the good word of the shape, and the degree of both.
#[derive(Clone, Copy, Debug, PartialEq, Eq)]
pub struct Common {
    pub shape: u32,
    pub degree: u32,
}

// The one degree of a shape word and a class word, and the good word of the shape. Refuses 1, 3, 2, 4, 5.
pub fn common_degree(shape: u32, class: u32) -> Result<Common, Refusal>
    ensures { common_told result ≡ degree_of_both degree_limit shape class }
{
    let of_shape = words::shapes::read(shape);
    let of_class = words::classes::degree(class);
    if of_shape == Err(Refusal::BadShape) {
        return Err(Refusal::BadShape);
    }
    if of_class == Err(Refusal::BadClass) {
        return Err(Refusal::BadClass);
    }
    let Ok(shape) = of_shape else {
        return Err(Refusal::ShapeTooLarge);
    };
    let degree = of_class?;
    if shape.degree != degree {
        return Err(Refusal::DegreesDiffer);
    }
    Ok(Common {
        shape: shape.word,
        degree: shape.degree,
    })
}
