//! What an endpoint over a desk stands for, while its application makes handles and spends them. It
//! runs nothing.
#![tactic(auto)]

mod law;

pub use law::desk_stands;
