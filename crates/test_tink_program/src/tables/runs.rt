//! What `run` reports, and the draws that it takes.

/// Reports and draws.
pub const TABLES: &str = r#"
ways:
a report of 0 bytes under raw | seal raw | #0 | 0 | any | draws=1024 left=1001 segments=1 bytes=0 keep=run
a report of their stream under raw | open raw | run | 0 | #0 | draws=0 left=0 segments=1 bytes=0
a report of 4,040 bytes under raw | seal raw | #4040 | 0 | any | draws=1024 left=1001 segments=1 bytes=4040 keep=run
a report of their stream under raw | open raw | run | 0 | #4040 | draws=0 left=0 segments=1 bytes=4040
a report of 4,041 bytes under raw | seal raw | #4041 | 0 | any | draws=1024 left=1001 segments=2 bytes=4041 keep=run
a report of their stream under raw | open raw | run | 0 | #4041 | draws=0 left=0 segments=2 bytes=4041
a report of 12,168 bytes under raw | seal raw | #12168 | 0 | any | draws=1024 left=1001 segments=3 bytes=12168 keep=run
a report of their stream under raw | open raw | run | 0 | #12168 | draws=0 left=0 segments=3 bytes=12168
a report of 0 bytes under small | seal small | #0 | 0 | any | draws=1024 left=1001 segments=1 bytes=0 keep=run
a report of their stream under small | open small | run | 0 | #0 | draws=0 left=0 segments=1 bytes=0
a report of 1 bytes under small | seal small | #1 | 0 | any | draws=1024 left=1001 segments=1 bytes=1 keep=run
a report of their stream under small | open small | run | 0 | #1 | draws=0 left=0 segments=1 bytes=1
a report of 26 bytes under small | seal small | #26 | 0 | any | draws=1024 left=1001 segments=2 bytes=26 keep=run
a report of their stream under small | open small | run | 0 | #26 | draws=0 left=0 segments=2 bytes=26
a report of 60 bytes under small | seal small | #60 | 0 | any | draws=1024 left=1001 segments=4 bytes=60 keep=run
a report of their stream under small | open small | run | 0 | #60 | draws=0 left=0 segments=4 bytes=60
a report of 4,040 bytes under mixed | seal mixed | #4040 | 0 | any | draws=1024 left=1001 segments=1 bytes=4040 keep=run
a report of their stream under mixed | open mixed | run | 0 | #4040 | draws=0 left=0 segments=1 bytes=4040
a report of 5,000 bytes under mixed | seal mixed | #5000 | 0 | any | draws=1024 left=1001 segments=1 bytes=5000 keep=run
a report of their stream under mixed | open mixed | run | 0 | #5000 | draws=0 left=0 segments=1 bytes=5000
a report of an empty last segment | open small | emptylast | 0 | #26 | draws=0 left=0 segments=3 bytes=26
too few draws are left | seal raw | | 255 random fault | | draws=22 left=22
draws are taken whole | seal raw | | 0 | length 56 | draws=23 left=0 segments=1 bytes=0
"#;
