//! Dense and far numbers through the map of labels.

use a64_label_map::LabelMap;
use std::alloc::AllocError;

#[test]
fn keeps_dense_and_far_numbers(rt: HostRuntime) -> Result<(), AllocError> {
    let mut map: LabelMap<u32> = LabelMap::new(rt.alloc());
    for number in 0..200u32 {
        assert_eq!(rt; map.insert(number * 3 % 200, number)?, None);
    }
    assert_eq!(rt; map.insert(u32::MAX, 7)?, None);
    assert_eq!(rt; map.insert(1000, 8)?, None);
    assert_eq!(rt; map.insert(3, 9)?, Some(1));
    assert_eq!(rt; map.get(3), Some(9));
    assert_eq!(rt; map.get(u32::MAX), Some(7));
    assert_eq!(rt; map.get(999), None);
    assert!(rt; map.contains(1000));
    let list = map.entries(rt.alloc())?;
    assert_eq!(rt; list.len(), 202);
    assert_eq!(rt; list[1], (1, 67));
    assert_eq!(rt; list[200], (1000, 8));
    assert_eq!(rt; list[201], (u32::MAX, 7));
    Ok(())
}
