// A broker that goes on from its own bytes.

mod giving;
mod random;
