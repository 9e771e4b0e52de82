// What C and Rust can call: every public function of the crates below, over numbers and byte slices, under names that begin with `pulevago_`.
// `include/pulevago.h` declares the same for C. Each answers a number of document 01; what it gives beside that it writes through lent numbers, which a
// refusal leaves as they are. A call is thin: it calls the function below, takes the number of its answer, and where that is done writes the values.
#![tactic(auto)]

mod check_values;
mod i2c_calls;
mod serial_calls;
mod usb_calls;
