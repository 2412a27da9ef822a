use crate::{accumulate, bits_of, symbols_of};
use hpe_base::Order;

#[test]
fn running_sums(rt: HostRuntime) {
    let mut bits = [1, 0, 1, 0];
    accumulate(&mut bits);
    assert_eq!(rt; bits, [1, 1, 0, 0]);
}

#[test]
fn mapped_bits(rt: HostRuntime) {
    let mut one = [0];
    symbols_of(Order::P16, &[1, 1, 0, 0], &mut one);
    assert_eq!(rt; one, [12]);
    let mut two = [0, 0];
    symbols_of(Order::P8, &[1, 0, 1, 0, 1, 1], &mut two);
    assert_eq!(rt; two, [5, 3]);
}

#[test]
fn bits_of_symbols(rt: HostRuntime) {
    let mut bits = [0; 4];
    bits_of(Order::P16, &[12], &mut bits);
    assert_eq!(rt; bits, [1, 1, 0, 0]);
    let mut bits = [0; 6];
    bits_of(Order::P8, &[5, 3], &mut bits);
    assert_eq!(rt; bits, [1, 0, 1, 0, 1, 1]);
    let mut symbols = [0; 2];
    symbols_of(Order::P8, &bits, &mut symbols);
    assert_eq!(rt; symbols, [5, 3]);
}
