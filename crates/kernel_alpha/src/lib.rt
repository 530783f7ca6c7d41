// Alpha by rows: colours unpremultiplied and premultiplied, and luminance to alpha. What depends on no pixel is put into tables once a step;
// the caller lends the tables to each row.
#![tactic(auto)]

pub mod luminance;
pub mod premultiply;
pub mod store;
pub mod unpremultiply;
