//! New channels, with ample memory.
use aps_channel::Channels;
use aps_model::ChannelId;

#[test]
fn new_channels_hold_no_message(rt: HostRuntime) {
    let channels = Channels::new(rt.alloc(), 2, 6).expect(&rt, "memory");
    assert!(rt; channels.top(ChannelId::at(0)) == None);
    assert!(rt; channels.top(ChannelId::at(1)) == None);
}
