//! Counting the acts of a reply, and the printed metrics.

use crate::texts::text_of;
use bytes::Bytes;
use mq_end::{BoxedList, CloseReason};
use mq_packet::{Message, Payload, RefusalCode};
use mq_route::{Act, Conn, HubClose, HubReply};
use mq_status::{Counter, Gauges, Metrics, MissReason, write_prometheus};
use mq_topic::{ClientKey, Qos, TopicFilter, TopicName};
use std::alloc::Global;
use std::process::Abort;
use std::test::Fail;

const PRINTED: &str = "# HELP mqtt_connections Connections that are open.
# TYPE mqtt_connections gauge
mqtt_connections 7
# HELP mqtt_sessions Sessions that are stored.
# TYPE mqtt_sessions gauge
mqtt_sessions 8
# HELP mqtt_subscriptions Subscriptions that are stored.
# TYPE mqtt_subscriptions gauge
mqtt_subscriptions 9
# HELP mqtt_retained_messages Retained messages.
# TYPE mqtt_retained_messages gauge
mqtt_retained_messages 10
# HELP mqtt_stored_messages Messages stored in sessions.
# TYPE mqtt_stored_messages gauge
mqtt_stored_messages 11
# HELP mqtt_pending_bytes Bytes pending on connections.
# TYPE mqtt_pending_bytes gauge
mqtt_pending_bytes 18446744073709551615
# HELP mqtt_messages_in_total Messages accepted from clients.
# TYPE mqtt_messages_in_total counter
mqtt_messages_in_total{qos=\"0\"} 0
mqtt_messages_in_total{qos=\"1\"} 2
mqtt_messages_in_total{qos=\"2\"} 0
# HELP mqtt_message_bytes_in_total Topic and payload bytes of messages accepted from clients.
# TYPE mqtt_message_bytes_in_total counter
mqtt_message_bytes_in_total{qos=\"0\"} 0
mqtt_message_bytes_in_total{qos=\"1\"} 12
mqtt_message_bytes_in_total{qos=\"2\"} 0
# HELP mqtt_messages_out_total Copies of messages placed for clients.
# TYPE mqtt_messages_out_total counter
mqtt_messages_out_total{qos=\"0\"} 1
mqtt_messages_out_total{qos=\"1\"} 0
mqtt_messages_out_total{qos=\"2\"} 1
# HELP mqtt_message_bytes_out_total Topic and payload bytes of copies placed for clients.
# TYPE mqtt_message_bytes_out_total counter
mqtt_message_bytes_out_total{qos=\"0\"} 6
mqtt_message_bytes_out_total{qos=\"1\"} 0
mqtt_message_bytes_out_total{qos=\"2\"} 6
# HELP mqtt_messages_missed_total Copies that a client missed.
# TYPE mqtt_messages_missed_total counter
mqtt_messages_missed_total{reason=\"session_full\"} 5
mqtt_messages_missed_total{reason=\"output_full\"} 18446744073709551615
# HELP mqtt_connections_closed_total Connections closed, by reason.
# TYPE mqtt_connections_closed_total counter
mqtt_connections_closed_total{code=\"C1\"} 0
mqtt_connections_closed_total{code=\"C2\"} 0
mqtt_connections_closed_total{code=\"C3\"} 1
mqtt_connections_closed_total{code=\"C4\"} 0
mqtt_connections_closed_total{code=\"C5\"} 0
mqtt_connections_closed_total{code=\"C6\"} 0
mqtt_connections_closed_total{code=\"C7\"} 0
mqtt_connections_closed_total{code=\"C8\"} 0
mqtt_connections_closed_total{code=\"C9\"} 0
mqtt_connections_closed_total{code=\"C10\"} 2
mqtt_connections_closed_total{code=\"C11\"} 0
mqtt_connections_closed_total{code=\"C12\"} 0
mqtt_connections_closed_total{code=\"C13\"} 0
# HELP mqtt_connects_refused_total CONNECT packets refused, by return code.
# TYPE mqtt_connects_refused_total counter
mqtt_connects_refused_total{code=\"1\"} 0
mqtt_connects_refused_total{code=\"2\"} 0
mqtt_connects_refused_total{code=\"3\"} 0
mqtt_connects_refused_total{code=\"4\"} 0
mqtt_connects_refused_total{code=\"5\"} 1
# HELP mqtt_connects_accepted_total CONNECT packets accepted.
# TYPE mqtt_connects_accepted_total counter
mqtt_connects_accepted_total 1
# HELP mqtt_sessions_ended_total Sessions removed.
# TYPE mqtt_sessions_ended_total counter
mqtt_sessions_ended_total 1
# HELP mqtt_subscribes_total Subscriptions stored.
# TYPE mqtt_subscribes_total counter
mqtt_subscribes_total 1
# HELP mqtt_unsubscribes_total Subscriptions removed by UNSUBSCRIBE.
# TYPE mqtt_unsubscribes_total counter
mqtt_unsubscribes_total 1
# HELP mqtt_wills_total Wills published.
# TYPE mqtt_wills_total counter
mqtt_wills_total 1
# HELP mqtt_wills_dropped_total Wills dropped.
# TYPE mqtt_wills_dropped_total counter
mqtt_wills_dropped_total 1
# HELP mqtt_bytes_read_total Bytes read from connections.
# TYPE mqtt_bytes_read_total counter
mqtt_bytes_read_total 300
# HELP mqtt_bytes_written_total Bytes written to connections.
# TYPE mqtt_bytes_written_total counter
mqtt_bytes_written_total 40
# HELP mqtt_connections_turned_away_total Connections closed at once because there were too many.
# TYPE mqtt_connections_turned_away_total counter
mqtt_connections_turned_away_total 1
# HELP mqtt_round_seconds Time of the event loop's rounds, without waiting.
# TYPE mqtt_round_seconds summary
mqtt_round_seconds_sum 1.500250
mqtt_round_seconds_count 2
";

// A message of six bytes.
fn message(alloc: Global, qos: Qos) -> Result<Message, Fail> {
    Ok(Message {
        topic: TopicName::parse(alloc, "a/b")?,
        payload: Payload::new(Bytes::from_static(b"xyz")).ok_or("no payload")?,
        qos,
        retain: false,
    })
}

// A reply with each act.
fn reply(alloc: Global) -> Result<HubReply, Fail> {
    let key = ClientKey::new(1);
    let conn = Conn { worker: 0, nth: 1 };
    let refused = HubClose::Own(CloseReason::Refused(RefusalCode::NotAuthorized));
    let mut acts = Vec::new(alloc);
    acts.push(Act::Up(conn, key, false))?;
    acts.push(Act::Took(key, message(alloc, Qos::Q1)?))?;
    acts.push(Act::Took(key, message(alloc, Qos::Q1)?))?;
    acts.push(Act::Placed(key, message(alloc, Qos::Q0)?))?;
    acts.push(Act::Placed(key, message(alloc, Qos::Q2)?))?;
    acts.push(Act::Subscribed(key, TopicFilter::parse(alloc, "a/+")?, Qos::Q1))?;
    acts.push(Act::Unsubscribed(key, TopicFilter::parse(alloc, "a/+")?))?;
    acts.push(Act::Will(key, message(alloc, Qos::Q0)?))?;
    acts.push(Act::WillDropped(key))?;
    acts.push(Act::Closed(conn, HubClose::PeerEnded))?;
    acts.push(Act::Closed(conn, HubClose::PeerEnded))?;
    acts.push(Act::Closed(conn, refused))?;
    acts.push(Act::Removed(key))?;
    Ok(HubReply {
        acts: BoxedList::from_vec(acts),
        output: Bytes::from_static(b""),
        alive: true,
    })
}

// The metrics after the reply.
fn counted(alloc: Global) -> Result<Metrics, Fail> {
    let mut metrics = Metrics::new();
    metrics.count_reply(&reply(alloc)?);
    metrics.set_gauges(Gauges {
        connections: 7,
        sessions: 8,
        subscriptions: 9,
        retained: 10,
        stored_messages: 11,
        pending_bytes: u64::MAX,
    });
    metrics.add(Counter::Missed(MissReason::SessionFull), 5);
    metrics.add(Counter::Missed(MissReason::OutputFull), u64::MAX - 1);
    metrics.add(Counter::Missed(MissReason::OutputFull), 7);
    metrics.add(Counter::TurnedAway, 1);
    metrics.count_read(300);
    metrics.count_written(40);
    metrics.count_round(1_500_000);
    metrics.count_round(250);
    Ok(metrics)
}

#[test]
fn printed(rt: HostRuntime) -> Result<(), Fail> {
    let alloc = rt.alloc();
    let metrics = counted(alloc)?;
    let mut out = Vec::new(alloc);
    write_prometheus(&mut out, &metrics)?;
    drop(metrics);
    let text = text_of(alloc, out.as_slice())?;
    assert_eq!(rt; text.as_str(), PRINTED);
    Ok(())
}
