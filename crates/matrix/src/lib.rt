// Matrices over GF(2) as slices of rows, a word each.
// A row is a number whose bit j is its entry in column j. The functions take exactly the rows meant, and give arrays with room for ROWS of them.
#![tactic(auto)]

pub mod vector; // vector.rt: bits, parities, sums
pub mod carry; // carry.rt: what a sum of columns changes by from one number to the next
pub mod rows; // rows.rt: a matrix applied to an address, its columns, products
