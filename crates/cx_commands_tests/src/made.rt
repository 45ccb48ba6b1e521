/// The scenario that is made of one item.
pub const ONE_ITEM: &[u8] = b"cxthread 1\n\
    jthread w\n\
    jthread p0\n\
    jthread p1\n\
    jthread c0\n\
    jthread c1\n\
    mutex m 2\n\
    condition items\n\
    condition space\n\
    condition idle\n\
    body w\n\
    lock m\n\
    wait_stop idle m w 0 > 16\n\
    unlock m\n\
    end\n\
    body p0\n\
    lock m\n\
    wait_pred space m 0 < 16\n\
    add m 0 1\n\
    add m 1 1\n\
    notify_one items\n\
    unlock m\n\
    end\n\
    body p1\n\
    end\n\
    body c0\n\
    lock m\n\
    wait_stop items m c0 0 > 0\n\
    add m 0 -1\n\
    notify_one space\n\
    unlock m\n\
    end\n\
    body c1\n\
    end\n\
    main\n\
    start w\n\
    start p0\n\
    start p1\n\
    start c0\n\
    start c1\n\
    join p0\n\
    join p1\n\
    join c0\n\
    join c1\n\
    end\n";

/// The scenario that is made of three items.
pub const THREE_ITEMS: &[u8] = b"cxthread 1\n\
    jthread w\n\
    jthread p0\n\
    jthread p1\n\
    jthread c0\n\
    jthread c1\n\
    mutex m 2\n\
    condition items\n\
    condition space\n\
    condition idle\n\
    body w\n\
    lock m\n\
    wait_stop idle m w 0 > 16\n\
    unlock m\n\
    end\n\
    body p0\n\
    lock m\n\
    wait_pred space m 0 < 16\n\
    add m 0 1\n\
    add m 1 1\n\
    notify_one items\n\
    unlock m\n\
    lock m\n\
    wait_pred space m 0 < 16\n\
    add m 0 1\n\
    add m 1 3\n\
    notify_one items\n\
    unlock m\n\
    end\n\
    body p1\n\
    lock m\n\
    wait_pred space m 0 < 16\n\
    add m 0 1\n\
    add m 1 2\n\
    notify_one items\n\
    unlock m\n\
    end\n\
    body c0\n\
    lock m\n\
    wait_stop items m c0 0 > 0\n\
    add m 0 -1\n\
    notify_one space\n\
    unlock m\n\
    lock m\n\
    wait_stop items m c0 0 > 0\n\
    add m 0 -1\n\
    notify_one space\n\
    unlock m\n\
    end\n\
    body c1\n\
    lock m\n\
    wait_stop items m c1 0 > 0\n\
    add m 0 -1\n\
    notify_one space\n\
    unlock m\n\
    end\n\
    main\n\
    start w\n\
    start p0\n\
    start p1\n\
    start c0\n\
    start c1\n\
    join p0\n\
    join p1\n\
    join c0\n\
    join c1\n\
    end\n";
