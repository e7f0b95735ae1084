// Polynomials over GF(2), as codes: the product, irreducibility, and division by the feedback of a register.
#![tactic(auto)]

mod feedback;
mod irreducible;
mod multiply;

pub use feedback::Feedback;
pub use irreducible::is_irreducible;
pub use multiply::product;
