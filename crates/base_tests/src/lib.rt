// Tests of what every layer speaks of, of the outside, of primitives and of the machine. A module's name begins with the crate that it tests.
#![tactic(auto)]

#[cfg(test)]
mod heap_vm_arithmetic;
#[cfg(test)]
mod heap_vm_machine;
#[cfg(test)]
mod heap_vm_name;
#[cfg(test)]
mod heap_vm_pieces;
#[cfg(test)]
mod heap_vm_programs;
#[cfg(test)]
mod heap_vm_stops;
#[cfg(test)]
mod ir_code_tests;
#[cfg(test)]
mod label_rows_tests;
#[cfg(test)]
mod mlc_base_passes;
#[cfg(test)]
mod mlc_base_tests;
#[cfg(test)]
mod mlc_outside_tests;
#[cfg(test)]
mod mlc_prims_expected;
#[cfg(test)]
mod mlc_prims_integers;
#[cfg(test)]
mod mlc_prims_strings;
#[cfg(test)]
mod mlc_prims_words;
#[cfg(test)]
mod scoped_map_tests;
