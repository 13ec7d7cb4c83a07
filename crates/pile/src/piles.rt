use crate::either::Either;
use layers::router::Router;
use layers::spreader::Spreader;
use memory::catalogue::Catalogue;
use memory::flat::Flat;

// A memory with no other below it.
pub type Base = Either<Flat, Catalogue>;

// One such memory, or two that share the cells by a bit of their numbers.
pub type Shared = Either<Base, Router<Base, Base>>;

// The cells as they are, or spread apart.
pub type Pile = Either<Shared, Spreader<Shared>>;
